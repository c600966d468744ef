// A reader's answer, a sample or a refusal number, for f64 and f32, and which number is given when several tests fail.
#![tactic(auto)]

ghost use Rattle.std.specs.Prelude.{◌≡◌};
ghost use Rattle.answer.specs.Answers.{answer_of, answer_f32_of};
ghost use Rattle.answer.specs.Refusals.{lowest_of};

#[derive(Clone, Copy)]
pub enum Answer {
    Sample(f64),
    Refused(u8),
}

#[derive(Clone, Copy)]
pub enum AnswerF32 {
    Sample(f32),
    Refused(u8),
}

// The sample if the refusal is 0, which stands for none; otherwise the refusal.
pub fn answered(refusal: u8, sample: f64) -> Answer
    ensures { result ≡ answer_of refusal sample }
{
    if refusal == 0 {
        Answer::Sample(sample)
    } else {
        Answer::Refused(refusal)
    }
}

pub fn answered_f32(refusal: u8, sample: f32) -> AnswerF32
    ensures { result ≡ answer_f32_of refusal sample }
{
    if refusal == 0 {
        AnswerF32::Sample(sample)
    } else {
        AnswerF32::Refused(refusal)
    }
}

// N9. The lowest number whose test fails, in 01's order; 0 if all eight pass.
pub fn first(t1: bool, t2: bool, t3: bool, t4: bool, t5: bool, t6: bool, t7: bool, t8: bool) -> u8
    ensures { result ≡ lowest_of t1 t2 t3 t4 t5 t6 t7 t8 }
{
    if t1 {
        if t2 {
            if t3 {
                if t4 {
                    if t5 {
                        if t6 {
                            if t7 { if t8 { 0 } else { 8 } } else { 7 }
                        } else {
                            6
                        }
                    } else {
                        5
                    }
                } else {
                    4
                }
            } else {
                3
            }
        } else {
            2
        }
    } else {
        1
    }
}
