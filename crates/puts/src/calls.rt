// How a definition is called, and which tail calls the call returns. A tail set has one bit for each level of definitions.
ghost use Rattle.std.specs.Prelude.{◌≡◌, ◌⊎◌, ℕ, ◌≤◌, ◌<◌};
ghost use Rattle.std.specs.Int.Count.{ones};
ghost use Rattle.rules.specs.Table.{kind_number};
ghost use Rattle.puts.specs.Calls.{call_number};
ghost use Rattle.rules.specs.Tails.{bit, parent, sibling, local_call, module_kind};

// "The four call kinds keep fixed numbers": the constants. The tables are written by the constructors and `number`.
// Kept: constants and constructors beside the variants, since document 01 names this form for them.
#[derive(Clone, Copy, PartialEq, Eq)]
pub enum CallType {
    Inline,
    Throw,
    CatchOne,
    CatchAll,
}

impl CallType {
    pub const INLINE: u8 = 0;

    pub const THROW: u8 = 1;

    pub const CATCH_ONE: u8 = 2;

    pub const CATCH_ALL: u8 = 3;

    pub fn new_inline() -> CallType
        ensures { call_number result ≡ 0 }
    {
        CallType::Inline
    }

    pub fn new_throw() -> CallType
        ensures { call_number result ≡ 1 }
    {
        CallType::Throw
    }

    pub fn new_catch_one() -> CallType
        ensures { call_number result ≡ 2 }
    {
        CallType::CatchOne
    }

    pub fn new_catch_all() -> CallType
        ensures { call_number result ≡ 3 }
    {
        CallType::CatchAll
    }

    pub fn number(self) -> u8
        ensures { result ≡ call_number self }
    {
        match self {
            CallType::Inline => CallType::INLINE,
            CallType::Throw => CallType::THROW,
            CallType::CatchOne => CallType::CATCH_ONE,
            CallType::CatchAll => CallType::CATCH_ALL,
        }
    }
}

#[derive(Clone, Copy)]
pub struct Jump {
    pub call: CallType,
    pub tail: u64,
}

// The set of one level.
pub fn bit(l: u64) -> u64
    ensures { result ≡ bit l }
{
    if l < 64 {
        return 1 << l;
    }
    0
}

// How many definitions a set holds.
fn size(s: u64) -> u32
    ensures { result ≡ ones s }
{
    u64::count_ones(s)
}

// "Parent: Throw if allowed, returning itself, else CatchAll returning nothing."
pub fn parent(l: u64, allowed: u64) -> Jump
    ensures { (call_number result.call ≡ kind_number (local_call l parent allowed).kind) × (result.tail ≡ (local_call l parent allowed).tail) }
{
    let own = bit(l);
    if allowed & own == 0 {
        return Jump {
            call: CallType::new_catch_all(),
            tail: 0,
        };
    }
    Jump {
        call: CallType::new_throw(),
        tail: own,
    }
}

// "Sibling: its set less itself; if allowed, CatchOne when it held itself, else Inline, returning that set; otherwise CatchAll, returning nothing."
pub fn sibling(l: u64, set: u64, allowed: u64) -> Jump
    ensures { (call_number result.call ≡ kind_number (local_call l (sibling set) allowed).kind) × (result.tail ≡ (local_call l (sibling set) allowed).tail) }
{
    let own = set & bit(l);
    let rest = set - own;
    if rest & allowed == rest {
        if own == 0 {
            return Jump {
                call: CallType::new_inline(),
                tail: rest,
            };
        }
        return Jump {
            call: CallType::new_catch_one(),
            tail: rest,
        };
    }
    Jump {
        call: CallType::new_catch_all(),
        tail: 0,
    }
}

// "Module calls return nothing: CatchOne if self-returning, else Inline." The set of a module's definition holds at most one, which is itself.
pub fn outer(set: u64) -> Jump
    requires { ones set ≤ 1 }
    ensures { ((l : ℕ) → (set ≡ 0) ⊎ (set ≡ bit l) → l < 64 → call_number result.call ≡ kind_number (module_kind l (sibling set))) × (result.tail ≡ 0) }
{
    if size(set) == 0 {
        return Jump {
            call: CallType::new_inline(),
            tail: 0,
        };
    }
    Jump {
        call: CallType::new_catch_one(),
        tail: 0,
    }
}
