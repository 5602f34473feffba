// A path on a stack, and from there into a caller's buffer. As with the stack's own calls, a clause `lender` says that
// the owner of the slots has them back.
ghost use Rattle.std.specs.Prelude.{◌≡◌, ◌+◌, ◌<◌, ◌≤◌, [], ◌∷◌, ◌++◌, length};
ghost use Rattle.basis.specs.Lines.{overlaid};
ghost use Rattle.witness.specs.Path.{path_on, laid_over, traced};
ghost use Rattle.witness.specs.Showing.{told};

use crate::scratch::Shown;
use basis::{Refusal, Stack};

// Goes on to a mode.
pub(crate) fn add(path: &mut Stack<'_, u16>, mode: u16)
    requires { path.old.count < length path.old.slots.now }
    ensures holds { path_on path.new ≡ path_on path.old ++ mode ∷ [] }
    ensures count { path.new.count ≡ path.old.count + 1 }
    ensures room { length path.new.slots.now ≡ length path.old.slots.now }
    ensures lender { path.new.slots.ghost_name ≡ path.old.slots.ghost_name }
{
    let _ = path.push(mode);
}

// Takes a path off its stack, from its last mode, and lays it into a buffer from its beginning.
fn lay(path: &mut Stack<'_, u16>, out: &mut [u16])
    requires { path.old.count ≤ length out.old }
    ensures buffer { out.new ≡ laid_over (path_on path.old) out.old }
    ensures lender { path.new.slots.ghost_name ≡ path.old.slots.ghost_name }
{
    while let Some(mode) = path.pop() {
        out[path.len()] = mode;
    }
}

// Takes a path off its stack and lays it into a buffer; one that is too short is left as it is.
pub(crate) fn deliver(
    path: &mut Stack<'_, u16>,
    returns: Option<usize>,
    out: &mut [u16],
) -> Result<Shown, Refusal>
    ensures answer { result ≡ told (traced path.old returns) (length out.old) }
    ensures buffer { out.new ≡ overlaid (path_on path.old) out.old }
    ensures lender { path.new.slots.ghost_name ≡ path.old.slots.ghost_name }
{
    let modes = path.len();
    if out.len() < modes {
        return Err(Refusal::ShortPath(modes));
    }
    lay(path, out);
    Ok(Shown { modes, returns })
}
