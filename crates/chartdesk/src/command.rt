// What a line of standard input asks for. `specs/Commands.antt` defines it.
ghost use Rattle.chartdesk.specs.Commands.{advance_of, ask_of, bare_of, command_of, figured, number_of, place_of, rest_of, said_in, show_of, text_in, with_rest, word_of};
ghost use Rattle.std.specs.List.{position};
ghost use Rattle.std.specs.Prelude.{◌≡◌, ◌==◌};

use desk::Call;

// More modes than any path has that is shown.
const PATH_MODES: usize = 256;

// A call, or the report of the book, which is no call and no want of one.
#[derive(Clone, Copy)]
pub(crate) enum Command<'a> {
    Carry(Call<'a>),
    Report,
}

// The place of the first space.
fn space(text: &[u8]) -> Option<usize>
    ensures { result ≡ position (λ byte. byte == 32) text.now }
{
    text.iter().position(|byte| *byte == b' ')
}

// What stands before the first space, and what follows it.
fn cut<'a>(text: &'a [u8]) -> (&'a [u8], Option<&'a [u8]>)
    ensures word { result.0.now ≡ word_of text.now }
    ensures rest { text_in result.1 ≡ rest_of text.now }
{
    match space(text) {
        Some(end) => (&text[..end], Some(&text[end + 1..])),
        None => (text, None),
    }
}

// One figure more behind a number.
fn with_figure(value: u16, byte: u8) -> Option<u16>
    ensures { result ≡ figured value byte }
{
    if !byte.is_ascii_digit() {
        return None;
    }
    value.checked_mul(10)?.checked_add(u16::from(byte - b'0'))
}

// A number in decimal figures; `parse` would take a sign too.
fn number(text: &[u8]) -> Option<u16>
    ensures { result ≡ number_of text.now }
{
    if text.is_empty() {
        return None;
    }
    let mut value: u16 = 0;
    for byte in text {
        value = with_figure(value, *byte)?;
    }
    Some(value)
}

// A line and a mode.
#[derive(Clone, Copy)]
struct Place {
    line: usize,
    mode: u16,
}

// Two numbers with a space between them.
fn place_in(text: &[u8]) -> Option<Place>
    ensures { result ≡ place_of text.now }
{
    let (line, Some(mode)) = cut(text) else {
        return None;
    };
    let line = number(line)? as usize;
    let mode = number(mode)?;
    Some(Place { line, mode })
}

// A command of one word. By tests: with a `match` on the words the search left goals open, here and in `with_rest`.
fn bare<'a>(word: &[u8]) -> Option<Command<'a>>
    ensures { said_in result ≡ bare_of word.now }
{
    if word == b"count".as_slice() {
        Some(Command::Carry(Call::Count))
    } else if word == b"clear".as_slice() {
        Some(Command::Carry(Call::Clear))
    } else if word == b"finish".as_slice() {
        Some(Command::Carry(Call::Finish))
    } else if word == b"reopen".as_slice() {
        Some(Command::Carry(Call::Reopen))
    } else if word == b"report".as_slice() {
        Some(Command::Report)
    } else {
        None
    }
}

fn advance<'a>(rest: &[u8]) -> Option<Command<'a>>
    ensures { said_in result ≡ advance_of rest.now }
{
    Some(Command::Carry(Call::Advance(number(rest)?)))
}

// Asking and showing differ in the call that they make; a parameter for it would be as long as the function.
fn ask<'a>(rest: &[u8]) -> Option<Command<'a>>
    ensures { said_in result ≡ ask_of rest.now }
{
    let Place { line, mode } = place_in(rest)?;
    Some(Command::Carry(Call::Ask(line, mode)))
}

fn show<'a>(rest: &[u8]) -> Option<Command<'a>>
    ensures { said_in result ≡ show_of rest.now }
{
    let Place { line, mode } = place_in(rest)?;
    Some(Command::Carry(Call::Show(line, mode, PATH_MODES)))
}

// A command with what follows its first word.
fn with_rest<'a>(names: &'a [u8], word: &[u8], rest: &'a [u8]) -> Option<Command<'a>>
    ensures { said_in result ≡ with_rest names.now word.now rest.now }
{
    if word == b"enter".as_slice() {
        Some(Command::Carry(Call::Enter(names, rest)))
    } else if word == b"advance".as_slice() {
        advance(rest)
    } else if word == b"ask".as_slice() {
        ask(rest)
    } else if word == b"show".as_slice() {
        show(rest)
    } else {
        None
    }
}

// The command that a line spells, if it spells one; texts are entered under the names.
pub(crate) fn parse<'a>(names: &'a [u8], line: &'a [u8]) -> Option<Command<'a>>
    ensures { said_in result ≡ command_of names.now line.now }
{
    match cut(line) {
        (word, None) => bare(word),
        (word, Some(rest)) => with_rest(names, word, rest),
    }
}
