//! What a command stops by.
ghost use Rattle.std.specs.Prelude.{◌≡◌, ◌+◌, ◌<◌, ◌≤◌, ◌++◌, ◌∷◌, [], length, codes};
ghost use Rattle.std.specs.Fmt.{decimal};
ghost use Rattle.arrayvec.specs.ArrayString.{array_string_len};
ghost use Rattle.ak_base.specs.Stops.{status_of, stop_text};

use arrayvec::ArrayString;
use itoa::Buffer;

/// Why a command ends otherwise than done.
#[derive(Clone, Copy, Debug, PartialEq, Eq, Drop)]
pub enum Stop {
    /// The words are no command.
    Usage,
    /// A block doesn't spell what it should, or a file is missing or short.
    Damaged {
        file: u32,
        block: u32,
    },
    /// A call of the disk failed.
    Disk,
    /// A call of the ports failed.
    Port,
    /// There is no memory.
    Memory,
    /// All turns are spent.
    Budget,
    /// No further block or view can be numbered.
    Worn {
        ordinal: u32,
        fill: u32,
        number: u64,
    },
    /// There is no store.
    NoStore,
    /// There is a store already.
    Exists,
}

impl Stop {
    /// The exit status.
    pub fn status(&self) -> u8
        ensures { result ≡ status_of self.now }
    {
        match self {
            Stop::Usage => 1,
            Stop::Damaged { .. } => 2,
            Stop::Disk => 3,
            Stop::Port => 4,
            Stop::Memory => 5,
            Stop::Budget => 6,
            Stop::Worn { .. } => 7,
            Stop::NoStore => 8,
            Stop::Exists => 9,
        }
    }

    /// The line that the console is told, with its end. It takes no memory.
    pub fn line(&self) -> Line
        ensures { result.bytes ≡ stop_text self.now ++ 10 ∷ [] }
    {
        match self {
            Stop::Usage => line_of("usage: akl [create|run|serve|soak DIR [options]]"),
            Stop::Damaged { file, block } => damaged_line(*file, *block),
            Stop::Disk => line_of("akl: disk failed"),
            Stop::Port => line_of("akl: port failed"),
            Stop::Memory => line_of("akl: out of memory"),
            Stop::Budget => line_of("akl: turn budget spent"),
            Stop::Worn { .. } => line_of("akl: store worn"),
            Stop::NoStore => line_of("akl: no store"),
            Stop::Exists => line_of("akl: store exists"),
        }
    }
}

/// A line of the console.
pub type Line = ArrayString<80>;

// Appends a text for which there is room.
fn append(line: &mut Line, text: &str)
    requires { array_string_len line.old + length text.now ≤ 80 }
    ensures bytes { line.new.bytes ≡ line.old.bytes ++ text.now }
    ensures len { array_string_len line.new ≡ array_string_len line.old + length text.now }
{
    line.try_push_str(text).unwrap();
}

// The text as a line.
fn line_of(text: &str) -> Line
    requires { length text.now < 80 }
    ensures { result.bytes ≡ text.now ++ 10 ∷ [] }
{
    let mut line = Line::new();
    append(&mut line, text);
    append(&mut line, "\n");
    line
}

fn damaged_line(file: u32, block: u32) -> Line
    ensures { result.bytes ≡ codes "akl: damaged file " ++ decimal file ++ codes " block " ++ decimal block ++ 10 ∷ [] }
{
    let mut digits = Buffer::new();
    let mut line = Line::new();
    append(&mut line, "akl: damaged file ");
    append(&mut line, digits.format(file));
    append(&mut line, " block ");
    append(&mut line, digits.format(block));
    append(&mut line, "\n");
    line
}
