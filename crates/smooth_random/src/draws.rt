// M3. A draw: the generator one step on, and the number that 001 makes of it.
ghost use Rattle.std.specs.Prelude.{◌≡◌};
ghost use Rattle.smooth_random.specs.Drawing.{bipolar_drawn, scale_drawn, drawn};

use super::{Drawn, SmoothRandom};

impl SmoothRandom {
    // Draws a number from -1 to 1.
    pub fn random_bipolar(self) -> Drawn
        ensures { result ≡ drawn self (bipolar_drawn self) }
    {
        self.answered(self.bipolar())
    }

    // Draws a number from 0.65 to 1.35.
    pub fn random_segment_rate_scale(self) -> Drawn
        ensures { result ≡ drawn self (scale_drawn self) }
    {
        self.answered(self.scale())
    }

    // N3. Gives the draw, or refuses a state that is out of range.
    fn answered(self, draw: Drawn) -> Drawn
        ensures { result ≡ drawn self draw }
    {
        if self.valid() {
            draw
        } else {
            Drawn {
                random: self,
                value: 0.0,
                refusal: 3,
            }
        }
    }

    // Draws without testing the state, for a step of the drift, which has tested it already.
    pub(crate) fn bipolar(mut self) -> Drawn
        ensures { result ≡ bipolar_drawn self }
    {
        let x = xorshift::step(self.state);
        self.state = x;
        Drawn {
            random: self,
            value: xorshift::bipolar(x),
            refusal: 0,
        }
    }

    pub(crate) fn scale(mut self) -> Drawn
        ensures { result ≡ scale_drawn self }
    {
        let y = xorshift::step(self.state);
        self.state = y;
        Drawn {
            random: self,
            value: xorshift::scale(y),
            refusal: 0,
        }
    }
}
