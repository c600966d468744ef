// The engine for C (M1, M2, M5): its state goes in and out as 15 words (crates/packed_engine, crates/engine_calls), the
// settings as eight floats. Each call returns the refusal number, 0 for none; a refused call leaves the words unchanged
// (D1c).
ghost use Rattle.std.specs.Prelude.{◌≡◌};
ghost use Rattle.modulation_engine.specs.Engine.{opened_of, set_sample_rate_of, set_seed_of, reset_of};
ghost use Rattle.packed_engine.specs.Words.{params_of};
ghost use Rattle.engine_calls.specs.Left.{renews, renewed_by, steps, stepped_by};

#[unsafe(no_mangle)]
pub extern "C" fn fugnadri_engine_new(sample_rate: f64, seed: u64, words: &mut [u64; 15]) -> u8
    ensures { renews result words.new ≡
        renewed_by (λ e. opened_of sample_rate seed) words.old }
{
    engine_calls::new(sample_rate, seed, words)
}

#[unsafe(no_mangle)]
pub extern "C" fn fugnadri_engine_set_sample_rate(words: &mut [u64; 15], sample_rate: f64) -> u8
    ensures { renews result words.new ≡
        renewed_by (λ e. set_sample_rate_of e sample_rate) words.old }
{
    engine_calls::set_sample_rate(words, sample_rate)
}

#[unsafe(no_mangle)]
pub extern "C" fn fugnadri_engine_set_seed(words: &mut [u64; 15], seed: u64) -> u8
    ensures { renews result words.new ≡ renewed_by (λ e. set_seed_of e seed) words.old }
{
    engine_calls::set_seed(words, seed)
}

#[unsafe(no_mangle)]
pub extern "C" fn fugnadri_engine_reset(words: &mut [u64; 15]) -> u8
    ensures { renews result words.new ≡ renewed_by (λ e. reset_of e) words.old }
{
    engine_calls::reset(words)
}

// M5. Writes the offsets of the two sides through pointers, 0.0 if the step is refused.
#[unsafe(no_mangle)]
pub extern "C" fn fugnadri_engine_next(
    words: &mut [u64; 15],
    wow_rate_hz: f64,
    wow_depth_cents: f64,
    wow_shape: f64,
    flutter_rate_hz: f64,
    flutter_depth_cents: f64,
    flutter_shape: f64,
    drift_amount: f64,
    stereo_amount: f64,
    left: &mut f64,
    right: &mut f64,
) -> u8
    ensures { steps result words.new left.new right.new
        ≡ stepped_by (params_of wow_rate_hz wow_depth_cents wow_shape flutter_rate_hz flutter_depth_cents
        flutter_shape drift_amount stereo_amount) words.old }
{
    let params = packed_engine::settings_of(
        wow_rate_hz,
        wow_depth_cents,
        wow_shape,
        flutter_rate_hz,
        flutter_depth_cents,
        flutter_shape,
        drift_amount,
        stereo_amount,
    );
    engine_calls::next(words, params, left, right)
}
