// The numbers of the answers: a refusal's, and the one 64-bit number by which a C call gives an answer.
#![tactic(auto)]

ghost use Rattle.std.specs.Prelude.{◌≡◌, refl, ℕ, Result, Ok, Err};
ghost use Rattle.spec.specs.declared.Refusal.{Refusal};
ghost use Rattle.spec.specs.Answers.{Said, refused, number, answered, numbered, found, code};

use spec::Refusal;

// The C calls' number for "none"; a refusal's is this plus its number. One number, since C takes it.
pub const NONE: u64 = 4294967296;

// A refusal's number.
pub fn of_refusal(e: Refusal) -> u32
    ensures { result ≡ number e }
{
    e as u32
}

// What a call answers where it doesn't refuse.
pub trait Value {
    // What an answer with such a value says.
    ghost says: { Result Self Refusal → Said ℕ };

    // The C number of a value.
    fn code(self) -> u64
        ensures { result ≡ code (says (Ok self)) };

    // A refusal says its number, whatever the type of the values.
    ghost refusals: { (e : Refusal) → says (Err e) ≡ refused (number e) };
}

// 1 for yes, 0 for no.
impl Value for bool {
    ghost says = { answered };

    ghost refusals = { λ e. refl };

    fn code(self) -> u64 {
        self as u64
    }
}

impl Value for u32 {
    ghost says = { numbered };

    ghost refusals = { λ e. refl };

    fn code(self) -> u64 {
        u64::from(self)
    }
}

impl Value for Option<u32> {
    ghost says = { found };

    ghost refusals = { λ e. refl };

    fn code(self) -> u64 {
        self.map_or(NONE, u64::from)
    }
}

// The C number of an answer.
pub fn of_answer<T: Value>(a: Result<T, Refusal>) -> u64
    ensures { result ≡ code (T.says a) }
{
    match a {
        Ok(v) => v.code(),
        Err(e) => NONE + of_refusal(e) as u64,
    }
}
