//! What a printer is asked.

ghost use Rattle.std.specs.Prelude.{◌≡◌};
ghost use Rattle.escpos_probe.specs.Forms.{is_whole};

/// How an answer ends.
#[derive(Clone, Copy, Debug, PartialEq, Eq)]
pub enum Form {
    /// It is one byte.
    Byte,
    /// It is four bytes.
    FourBytes,
    /// It ends with a byte 00.
    Block,
    /// It is seven bytes.
    Process,
    /// It has no end of its own: whatever comes until nothing more comes.
    Anything,
}

impl Form {
    /// Whether an answer with these bytes is whole.
    pub fn is_whole(self, bytes: &[u8]) -> bool
        ensures { result ≡ is_whole self bytes.now }
    {
        match self {
            Form::Byte => bytes.len() >= 1,
            Form::FourBytes => bytes.len() >= 4,
            Form::Block => bytes.len() >= 1 && bytes[bytes.len() - 1] == 0,
            Form::Process => bytes.len() >= 7,
            Form::Anything => false,
        }
    }
}

/// Which premise an answer shows to be met.
#[derive(Clone, Copy, Debug, PartialEq, Eq)]
pub enum Shows {
    /// That the printer tells its status.
    Status,
    /// That it answers marks.
    Marks,
    /// None.
    Nothing,
}

/// A question: its name in the Reference, the bytes that ask it, how its answer ends, and what that shows. None of them prints.
#[derive(Clone, Copy, Debug, PartialEq, Eq)]
pub struct Question {
    pub name: &'static str,
    pub bytes: &'static [u8],
    pub form: Form,
    pub shows: Shows,
}

/// The answer to the mark that is asked for. No mark of a host has the process ID `~~~~`, so none is used up.
pub const MARK_ANSWER: &[u8] = b"7\"~~~~\x00";

/// What is asked, in order. (Reference: DLE EOT, GS I, GS ( H function 48, GS r, GS g 2, GS a.)
///
/// GS g 2 asks how many cuts were made. The last question switches automatic status back on, whose first message is the answer, and
/// off again.
pub const QUESTIONS: [Question; 11] = [
    Question {
        name: "DLE EOT 1",
        bytes: b"\x10\x04\x01",
        form: Form::Byte,
        shows: Shows::Status,
    },
    Question {
        name: "DLE EOT 2",
        bytes: b"\x10\x04\x02",
        form: Form::Byte,
        shows: Shows::Status,
    },
    Question {
        name: "DLE EOT 3",
        bytes: b"\x10\x04\x03",
        form: Form::Byte,
        shows: Shows::Status,
    },
    Question {
        name: "DLE EOT 4",
        bytes: b"\x10\x04\x04",
        form: Form::Byte,
        shows: Shows::Status,
    },
    Question {
        name: "GS I 1",
        bytes: b"\x1DI\x01",
        form: Form::Byte,
        shows: Shows::Nothing,
    },
    Question {
        name: "GS I 2",
        bytes: b"\x1DI\x02",
        form: Form::Byte,
        shows: Shows::Nothing,
    },
    Question {
        name: "GS I 67",
        bytes: b"\x1DIC",
        form: Form::Block,
        shows: Shows::Nothing,
    },
    Question {
        name: "GS ( H 48",
        bytes: b"\x1D(H\x06\x0000~~~~",
        form: Form::Process,
        shows: Shows::Marks,
    },
    Question {
        name: "GS r 1",
        bytes: b"\x1Dr\x01",
        form: Form::Byte,
        shows: Shows::Nothing,
    },
    Question {
        name: "GS g 2",
        bytes: b"\x1Dg2\x00\xB2\x00",
        form: Form::Block,
        shows: Shows::Nothing,
    },
    Question {
        name: "GS a",
        bytes: b"\x1Da\xFF\x1Da\x00",
        form: Form::FourBytes,
        shows: Shows::Nothing,
    },
];
