// W1. What has been seen of the chunks: whether one runs past the end, and where the first of each identifier stands.
ghost use Rattle.std.specs.Prelude.{◌≡◌, false};
ghost use Rattle.riff_chunks.specs.Chunks.{nowhere};
ghost use Rattle.riff_chunks.specs.Walk.{or_else, spot_if};
ghost use Rattle.riff_chunks.specs.Walk.{noted as Walk·noted};

use crate::{Chunk, Sought, Spot, Walked};

pub fn unseen() -> Walked
    ensures { result ≡ record { overruns = false; format = nowhere; samples = nowhere } }
{
    let none = Spot {
        found: false,
        body: 0,
        size: 0,
    };
    Walked {
        overruns: false,
        format: none,
        samples: none,
    }
}

// What has been seen after one more chunk.
pub fn noted(sought: Sought, seen: Walked, c: Chunk, over: bool) -> Walked
    ensures { result ≡ Walk·noted sought seen c over }
{
    let format = first_of(seen.format, sought.format, c);
    let samples = first_of(seen.samples, sought.samples, c);
    Walked {
        overruns: seen.overruns || over,
        format: format,
        samples: samples,
    }
}

// The spot that was found before; otherwise the chunk's, if it has the identifier.
fn first_of(before: Spot, id: u32, c: Chunk) -> Spot
    ensures { result ≡ or_else before (spot_if id c) }
{
    if before.found {
        return before;
    }
    if c.id == id {
        return Spot {
            found: true,
            body: c.body,
            size: c.size,
        };
    }
    Spot {
        found: false,
        body: 0,
        size: 0,
    }
}
