// What a line can ask for.
ghost use Rattle.std.specs.Prelude.{◌≡◌, take};

// The bytes of a write: after the first `count` they are 0. A struct and no `ArrayVec`, which is not `Copy` as a request is.
#[derive(Clone, Copy)]
pub struct WrittenBytes {
    pub bytes: [u8; 8],
    pub count: usize,
}

impl WrittenBytes {
    // The bytes without the zeros after them.
    pub fn as_slice(&self) -> &[u8]
        ensures { result.now ≡ take self.now.count self.now.bytes }
    {
        &self.bytes[..self.count.min(8)]
    }
}

// The call that a line asks for.
#[derive(Clone, Copy)]
pub enum Request {
    WriteRegister(u8, u8),
    ReadRegister(u8),
    Write(u32, WrittenBytes),
    Read(u32, u8),
    Flip(u32, u8),
    Scrub(u32),
}
