// The samples of two channels in turn, as a file of two channels has them.
#![tactic(auto)]

ghost use Rattle.std.specs.Prelude.{◌≡◌, length, get_or};
ghost use Rattle.constants.specs.Numbers.{zero-f};
ghost use Rattle.loop_laws.specs.Loops.{list_of};
ghost use Rattle.woven.specs.Woven.{woven_at};

// A sample by its place; 0.0 stands for one that is not there.
pub fn sample_at(samples: &[f32], k: usize) -> f32
    ensures { result ≡ get_or samples.now k zero-f }
{
    if k < samples.len() { samples[k] } else { 0.0 }
}

fn woven_at(one: &[f32], two: &[f32], k: usize) -> f32
    ensures { result ≡ woven_at one.now two.now k }
{
    if k % 2 == 0 {
        return sample_at(one, k / 2);
    }
    sample_at(two, k / 2)
}

// Fills the slice with the samples of both channels in turn.
pub fn weave(one: &[f32], two: &[f32], out: &mut [f32])
    ensures { out.new
        ≡ list_of (woven_at one.now two.now) (length out.old) }
{
    for (k, sample) in out.iter_mut().enumerate() {
        *sample = woven_at(one, two, k);
    }
}
