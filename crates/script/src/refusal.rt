ghost use Rattle.std.specs.Prelude.{◌≡◌};
ghost use Rattle.script.specs.Refusals.{told};

// Why a row of bytes is no script.
#[derive(Clone, Copy, Debug, PartialEq)]
pub enum ScriptFault {
    TooLong,
    UnknownCommand,
    CutShort,
}

// A fault, the script's number as the caller gave it, and where the fault stands in its bytes.
#[derive(Clone, Copy, Debug, PartialEq)]
pub struct ScriptRefusal {
    pub fault: ScriptFault,
    pub script: u8,
    pub place: u64,
}

impl ScriptRefusal {
    // Its number in the list of refusals, by which refusals are known. No trait has it, since nothing takes refusals of more
    // than one kind.
    pub fn number(self) -> u8
        ensures { result ≡ (told self).number }
    {
        match self.fault {
            ScriptFault::TooLong => 2,
            ScriptFault::UnknownCommand => 3,
            ScriptFault::CutShort => 4,
        }
    }

    pub fn script(self) -> u8
        ensures { result ≡ (told self).script }
    {
        self.script
    }

    pub fn place(self) -> u64
        ensures { result ≡ (told self).place }
    {
        self.place
    }
}
