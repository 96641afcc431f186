ghost use Rattle.std.specs.Prelude.{◌≡◌, length};
ghost use Rattle.kinds.specs.Kinds.{Bytes};

pub mod holding;

// The programmable bytes of a tag. Each is a byte, and there are W of them.
#[derive(Drop)]
pub struct Image<const W: usize> {
    bytes: [u8; W],
    ghost whole: { length bytes ≡ W },
    ghost small: { Bytes bytes },
}
