// Answers for callers outside: what a call says as one number of 64 bits.
#![tactic(auto, unfolding(crate::specs::Answer::in_halves))]

ghost use Rattle.std.specs.Prelude.{◌≡◌, ℕ};
ghost use Rattle.laws.specs.Order.{Said, granted, refused, refused_at};
ghost use Rattle.refusals.specs.Refusals.{says};
ghost use Rattle.c_answers.specs.Answer.{in_halves};
ghost use Rattle.c_answers.specs.Promise.{CapPromise, AnswerPromise, HalvesPromise, ToldPromise, YesPromise};

use refusals::Refusal;

// The value, or the highest that a half holds.
pub fn cap(v: usize) -> u32
    ensures { CapPromise v result }
{
    u32::try_from(v).unwrap_or(u32::MAX)
}

// A number in the low half, and the size or index that is named with it in the high half. It takes any number, as `AnswerPromise` does.
pub fn answer(number: u32, named: usize) -> u64
    ensures { AnswerPromise number named result }
{
    u64::from(number) + u64::from(cap(named)) * 4294967296
}

// What a value or an error says, in the two halves of an answer.
pub trait Halves {
    ghost said_of: { Self → Said ℕ };

    fn halves(self) -> u64
        ensures { HalvesPromise said_of self result };
}

// A size: no number, and the size.
impl Halves for usize {
    ghost said_of = { λ n. granted n };

    fn halves(self) -> u64 {
        answer(0, self)
    }
}

// Nothing is named.
impl Halves for () {
    ghost said_of = { λ _. granted 0 };

    fn halves(self) -> u64 {
        answer(0, 0)
    }
}

// A refusal by its number alone: `told` takes any, and so this and the next, which no call of the library needs.
impl Halves for u32 {
    ghost said_of = { λ n. refused n };

    fn halves(self) -> u64 {
        answer(self, 0)
    }
}

// A refusal by its number, and an index.
impl Halves for (u32, usize) {
    ghost said_of = { λ r. refused_at r.0 r.1 };

    fn halves(self) -> u64 {
        answer(self.0, self.1)
    }
}

impl Halves for Refusal {
    ghost said_of = { λ e. says e };

    fn halves(self) -> u64 {
        answer(self.number(), self.index().unwrap_or(0))
    }
}

// What a call's result says, as one number.
pub fn told<T: Halves, E: Halves>(r: Result<T, E>) -> u64
    ensures { ToldPromise T.said_of E.said_of r result }
{
    match r {
        Ok(v) => v.halves(),
        Err(e) => e.halves(),
    }
}

// 1 for yes, 0 for no.
pub fn yes(b: bool) -> u32
    ensures { YesPromise b result }
{
    u32::from(b)
}
