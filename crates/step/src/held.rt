// What a step is given of a task.
ghost use Rattle.std.specs.Prelude.{◌≡◌, Ok};
ghost use Rattle.task.specs.Reading.{reading, read_task};
ghost use Rattle.step.specs.Ready.{Held};

use task::index::{Index, Layout};

// A task's bytes with its index and the offset of each action's record, where every action and every case is there.
#[derive(Clone, Copy, Debug, PartialEq, Eq)]
pub struct HeldTask<'a> {
    pub bytes: &'a [u8],
    pub index: Index,
    pub offsets: &'a [usize; 64],
    ghost held: { Held bytes.now index offsets.now },
}

impl<'a> HeldTask<'a> {
    // The task of a file that passed, by its layout.
    pub fn new(bytes: &'a [u8], layout: &'a Layout) -> HeldTask<'a>
        requires { reading (Ok layout.now) ≡ read_task bytes.now }
        ensures bytes { result.bytes.now ≡ bytes.now }
        ensures index { result.index ≡ layout.now.index }
        ensures offsets { result.offsets.now ≡ layout.now.offsets }
    {
        HeldTask {
            bytes,
            index: layout.index,
            offsets: &layout.offsets,
        }
    }
}
