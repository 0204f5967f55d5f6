ghost use Rattle.std.specs.Prelude.{◌≤◌, length};

// A schedule that was judged good: it has no more bytes than 65,536 ticks have.
#[derive(Clone, Copy)]
pub struct Schedule<'a> {
    pub(crate) bytes: &'a [u8],
    ghost short: { length bytes.now ≤ 131072 },
}
