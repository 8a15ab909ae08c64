// A reader over the bytes of a sheet.
ghost use Rattle.std.specs.Prelude.{◌+◌, ◌^◌, ◌<◌, length};

// What is left of the bytes, and the place where that begins.
#[derive(Clone, Copy)]
pub struct Reader<'a> {
    pub rest: &'a [u8],
    pub place: usize,
    ghost within: { place + length rest.now < 2 ^ 64 },
}
