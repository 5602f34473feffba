// Whether a file is a chart: its header, its length, and each record's layout, with the first cause to refuse it.
// `specs/Files.antt` has the format, by places in the whole file, and the code reads at the same places.
ghost use Rattle.std.specs.Prelude.{◌≡◌, ◌+◌, ◌*◌, ◌<◌, ◌≤◌, length, Some, None, Ok, Err, MatchResult};
ghost use Rattle.chart.specs.Files.{Headed, fault, file_length, header_of, limited, lowest, place_of, place_sound, places_sound, sound_at, sound_in, stride};
ghost use Rattle.chart.specs.Files.{number as number_at};

use crate::record::Header;
use basis::Refusal;

// The two bytes at a place, the high one first.
pub(super) fn number(file: &[u8], at: usize) -> u16
    requires { at + 1 < length file.now }
    ensures { result ≡ number_at file.now at }
{
    u16::from_be_bytes([file[at], file[at + 1]])
}

impl TryFrom<&[u8]> for Header {
    type Error = Refusal;

    ghost try_from_gives = { λ f r. MatchResult r (λ h. Headed f.now h) (λ e. fault f.now ≡ Some e) };

    // The header of a file, if the file has one within the limits.
    fn try_from(file: &[u8]) -> Result<Header, Refusal> {
        if file.len() < 12 {
            return Err(Refusal::ShortFile);
        }
        if !file.starts_with(b"MCH\0\x01") {
            return Err(Refusal::Signature);
        }
        let header = Header {
            modes: number(file, 5),
            marks: file[7],
            width: file[8],
            start: number(file, 9),
            spare: file[11],
        };
        if header.is_within_limits() {
            Ok(header)
        } else {
            Err(Refusal::Header)
        }
    }
}

impl Header {
    fn is_within_limits(&self) -> bool
        ensures { result ≡ limited self.now }
    {
        (1..=256).contains(&self.modes)
            && self.marks <= 16
            && (1..=8).contains(&self.width)
            && self.start < self.modes
            && self.spare == 0
    }

    // The bytes of a record.
    fn stride(&self) -> usize
        ensures value { result ≡ stride self.now }
        ensures bound { result ≤ 514 }
    {
        4 + 2 * self.width as usize
    }

    // Where the record of a mode begins; for the number of modes, where the file ends.
    pub(super) fn place_of(&self, mode: u16) -> usize
        ensures { result ≡ place_of self.now mode }
    {
        12 + mode as usize * self.stride()
    }
}

// The first places hold modes, the others FFFF.
fn place_is_sound(header: &Header, degree: u8, place: u8, way: u16) -> bool
    ensures { result ≡ place_sound header.now.modes degree place way }
{
    if place < degree {
        way < header.modes
    } else {
        way == 0xFFFF
    }
}

fn places_are_sound(file: &[u8], header: &Header, at: usize, degree: u8) -> bool
    requires { at + (4 + 2 * header.now.width) ≤ length file.now }
    ensures { result ≡ places_sound file.now header.now at degree }
{
    (0..header.width).all(|place| {
        let way = number(file, at + 4 + 2 * place as usize);
        place_is_sound(header, degree, place, way)
    })
}

fn record_is_sound(file: &[u8], header: &Header, at: usize) -> bool
    requires { (at + (4 + 2 * header.now.width) ≤ length file.now) × (header.now.marks ≤ 16) }
    ensures { result ≡ sound_at file.now header.now at }
{
    let degree = file[at + 2];
    u32::from(number(file, at)) >> header.marks == 0
        && (1..=header.width).contains(&degree)
        && file[at + 3] == 0
        && places_are_sound(file, header, at, degree)
}

// The lowest mode whose record breaks its layout.
fn lowest_unsound(file: &[u8], header: &Header) -> Option<u16>
    requires { (length file.now ≡ file_length header.now) × (header.now.marks ≤ 16) }
    ensures { result ≡ lowest (sound_in file.now header.now) 0 header.now.modes }
{
    (0..header.modes).find(|mode| !record_is_sound(file, header, header.place_of(*mode)))
}

// The file's header, or the first cause to refuse the file.
pub(super) fn check(file: &[u8]) -> Result<Header, Refusal>
    ensures { elim result [ Ok h ↦ (fault file.now ≡ None) × (h ≡ header_of file.now) | Err e ↦ fault file.now ≡ Some e ] }
{
    let header = Header::try_from(file)?;
    if file.len() != header.place_of(header.modes) {
        return Err(Refusal::FileLength);
    }
    match lowest_unsound(file, &header) {
        Some(mode) => Err(Refusal::Record(mode)),
        None => Ok(header),
    }
}
