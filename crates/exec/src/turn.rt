// The machine's turn, of which a run is made: the running frame's burst, and the Call or Ret at which it stops.
ghost use Rattle.std.specs.Prelude.{◌≡◌, length};
ghost use Rattle.image.specs.Records.{form1};
ghost use Rattle.image.specs.Program.{decode};
ghost use Rattle.exec.specs.Price.{unit};
ghost use Rattle.exec.specs.Lent.{state};
ghost use Rattle.exec.specs.Burst.{turned, turn, Ready};

use crate::burst::Why;
use crate::{Ending, Step, burst, leave};
use image::program::Image;
use runtime::CoreTrap;

// After a turn: the fuel that it left, and what it came to.
#[derive(Clone, Copy, Debug, PartialEq, Eq)]
pub struct After {
    pub left: u64,
    pub step: Step,
}

pub fn turn(
    image: Image,
    frames: &mut [u64],
    registers: &mut [u64],
    d: usize,
    most: usize,
    fuel: u64,
) -> After
    requires { Ready (decode form1 image.bytes.now) frames.old (length registers.old) d }
    ensures { turned result.left result.step frames.new registers.new ≡ turn (decode form1 image.entry.bytes.now) unit most fuel (state frames.old registers.old d) }
{
    let h = burst::stretch(image, frames, registers, d, fuel);
    let step = match h.why {
        Why::Past => Err(Ending::Trapped(CoreTrap::InvalidPc)),
        Why::Dry => Err(Ending::Trapped(CoreTrap::FuelExceeded)),
        Why::Fails(t) => Err(Ending::Trapped(t)),
        Why::Leaves => leave::leave(image, frames, registers, d, most, h.top),
    };
    After { left: h.left, step }
}
