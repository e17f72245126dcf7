ghost use Rattle.std.specs.Prelude.{◌≡◌};
ghost use Rattle.gateway.specs.declared.refusal.InputRefusal.TheVariants.{Script};
ghost use Rattle.gateway.specs.Refusals.{told};

use script::refusal::ScriptRefusal;

// Why an input is refused.
#[derive(Clone, Copy, Debug, PartialEq)]
pub enum InputRefusal {
    // It has fewer than two bytes, or its length is above the bytes that follow.
    Header,
    Script(ScriptRefusal),
}

// By hand, since the contract of `open` says which refusal a `?` makes of a script's, and a derived `From` has no clause.
impl From<ScriptRefusal> for InputRefusal {
    ghost from_gives = { λ refusal r. r ≡ Script refusal };

    fn from(refusal: ScriptRefusal) -> InputRefusal {
        InputRefusal::Script(refusal)
    }
}

impl InputRefusal {
    // Its number in the list of refusals, by which refusals are known. No trait has it, since nothing takes refusals of more
    // than one kind.
    pub fn number(self) -> u8
        ensures { result ≡ (told self).number }
    {
        match self {
            InputRefusal::Header => 7,
            InputRefusal::Script(refusal) => refusal.number(),
        }
    }

    // The script's number. A wrong header has 0 and no None: that is how the list of refusals has it.
    pub fn script(self) -> u8
        ensures { result ≡ (told self).script }
    {
        match self {
            InputRefusal::Header => 0,
            InputRefusal::Script(refusal) => refusal.script(),
        }
    }

    // The place in the script; 0 likewise.
    pub fn place(self) -> u64
        ensures { result ≡ (told self).place }
    {
        match self {
            InputRefusal::Header => 0,
            InputRefusal::Script(refusal) => refusal.place(),
        }
    }
}
