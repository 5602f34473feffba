// What a chart file holds, as plain data: the header, and a record for each mode.
ghost use Rattle.std.specs.Prelude.{◌≡◌, ◌≤◌, length, take};

#[derive(Clone, Copy)]
pub struct Header {
    pub modes: u16,
    pub marks: u8,
    pub width: u8,
    pub start: u16,
    pub spare: u8,
}

// Bit k of `marks` is mark k. The first `degree` places hold the ways: records are plain copies in room taken once, so
// none has a vector of its own.
#[derive(Clone, Copy)]
pub struct ModeRecord {
    pub marks: u16,
    pub degree: u8,
    pub ways: [u16; 8],
    ghost few: { degree ≤ length ways },
}

impl ModeRecord {
    pub fn ways(&self) -> &[u16]
        ensures { result.now ≡ take self.now.degree self.now.ways }
    {
        &self.ways[..self.degree as usize]
    }
}
