// The lists that travel with a record: lent to a read, which fills them, and handed to a write.

// Lent to be filled: a read writes over the front of those that its kind has.
#[derive(Drop)]
pub struct Lists<'a> {
    pub quads: &'a mut [u32],
    pub units: &'a mut [u16],
    pub lines: &'a mut [u32],
    pub frames: &'a mut [u16],
}

// What is written with a record: its lists, and its label.
#[derive(Clone, Copy)]
pub struct Content<'a> {
    pub quads: &'a [u32],
    pub units: &'a [u16],
    pub lines: &'a [u32],
    pub frames: &'a [u16],
    pub label: &'a [u8],
}
