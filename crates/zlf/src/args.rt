// The words of the call: the command, the file, and where each option's value stands among the arguments.
use crate::refuse::Refused;
use crate::{facts, refuse};
use std::env::FillError;
use std::rt::Env;

// What a trace is asked.
#[derive(Clone, Copy, Debug, PartialEq, Eq)]
pub enum Question {
    List,
    Check,
    Info,
    Seek,
    Records,
}

// The commands.
#[derive(Clone, Copy, Debug, PartialEq, Eq)]
pub enum Command {
    Help,
    Ask(Question),
    Speeds,
}

impl Command {
    // The command that a word names.
    pub fn named(word: &[u8]) -> Option<Command> {
        match word {
            b"help" | b"--help" => Some(Command::Help),
            b"list" => Some(Command::Ask(Question::List)),
            b"check" => Some(Command::Ask(Question::Check)),
            b"info" => Some(Command::Ask(Question::Info)),
            b"seek" => Some(Command::Ask(Question::Seek)),
            b"records" => Some(Command::Ask(Question::Records)),
            b"speeds" => Some(Command::Speeds),
            _ => None,
        }
    }
}

// The options that take a value. `--plain`, which every command has, takes none.
#[derive(Clone, Copy, Debug, PartialEq, Eq)]
enum Choice {
    From,
    At,
    Count,
    Pages,
    Kinds,
    Version,
}

impl Choice {
    // The option that a word names.
    fn named(word: &[u8]) -> Option<Choice> {
        match word {
            b"--from" => Some(Choice::From),
            b"--at" => Some(Choice::At),
            b"--count" => Some(Choice::Count),
            b"--pages" => Some(Choice::Pages),
            b"--kinds" => Some(Choice::Kinds),
            b"--version" => Some(Choice::Version),
            _ => None,
        }
    }

    // Whether a command takes it.
    fn is_of(self, command: Command) -> bool {
        match self {
            Choice::From | Choice::Count => {
                matches!(command, Command::Ask(Question::List | Question::Records))
            }
            Choice::At | Choice::Pages => command == Command::Ask(Question::List),
            Choice::Kinds | Choice::Version => command != Command::Speeds,
        }
    }
}

// A call: the places of its words among the arguments.
#[derive(Clone, Copy)]
pub struct Call {
    pub command: Command,
    pub plain: bool,
    pub file: Option<usize>,
    pub operand: Option<usize>,
    pub from: Option<usize>,
    pub at: Option<usize>,
    pub count: Option<usize>,
    pub pages: Option<usize>,
    pub kinds: Option<usize>,
    pub version: Option<usize>,
    // The option whose value comes next.
    taking: Option<Choice>,
}

impl Call {
    // A call of a command, with no word more.
    fn of(command: Command) -> Call {
        Call {
            command,
            plain: false,
            file: None,
            operand: None,
            from: None,
            at: None,
            count: None,
            pages: None,
            kinds: None,
            version: None,
            taking: None,
        }
    }

    // The value of an option is at a place.
    fn with_value(self, choice: Choice, i: usize) -> Call {
        let place = Some(i);
        let call = Call {
            taking: None,
            ..self
        };
        match choice {
            Choice::From => Call {
                from: place,
                ..call
            },
            Choice::At => Call { at: place, ..call },
            Choice::Count => Call {
                count: place,
                ..call
            },
            Choice::Pages => Call {
                pages: place,
                ..call
            },
            Choice::Kinds => Call {
                kinds: place,
                ..call
            },
            Choice::Version => Call {
                version: place,
                ..call
            },
        }
    }

    // The call with an option.
    fn with_option(self, rt: &HostRuntime, word: &[u8]) -> Result<Call, Refused> {
        if matches!(word, b"--plain") {
            return Ok(Call {
                plain: true,
                ..self
            });
        }
        match Choice::named(word) {
            Some(choice) if choice.is_of(self.command) => Ok(Call {
                taking: Some(choice),
                ..self
            }),
            _ => Err(refuse::word(
                rt,
                word,
                b"' is no option of this command (zlf help COMMAND lists them)\n",
                facts::NONE,
            )),
        }
    }

    // A word that is no option is at a place: the file first, and then what `check` and `seek` take. `speeds` takes none.
    fn with_name(self, rt: &HostRuntime, word: &[u8], i: usize) -> Result<Call, Refused> {
        if self.file.is_none() && self.command != Command::Speeds {
            return Ok(Call {
                file: Some(i),
                ..self
            });
        }
        let takes_more = matches!(self.command, Command::Ask(Question::Check | Question::Seek));
        if self.operand.is_none() && takes_more {
            return Ok(Call {
                operand: Some(i),
                ..self
            });
        }
        Err(refuse::word(
            rt,
            word,
            b"' is one word too many (zlf help COMMAND)\n",
            facts::NONE,
        ))
    }

    // The call with the argument at a place. A negative number is no option.
    fn with_argument(self, rt: &HostRuntime, word: &[u8], i: usize) -> Result<Call, Refused> {
        if let Some(choice) = self.taking {
            return Ok(self.with_value(choice, i));
        }
        if word.starts_with(b"--") {
            return self.with_option(rt, word);
        }
        self.with_name(rt, word, i)
    }

    // What the call lacks.
    fn lack(self) -> Option<&'static [u8]> {
        if self.taking.is_some() {
            return Some(b"the last option lacks its value\n");
        }
        match self.command {
            Command::Help | Command::Speeds => None,
            Command::Ask(_) if self.file.is_none() => Some(b"which file? (zlf help COMMAND)\n"),
            Command::Ask(Question::Seek) if self.operand.is_none() => {
                Some(b"which time? (zlf seek FILE TIME)\n")
            }
            Command::Ask(_) if self.from.is_some() && self.at.is_some() => {
                Some(b"--from and --at exclude each other\n")
            }
            Command::Ask(_) => None,
        }
    }
}

// The argument at a place, put at the start of a room: no bytes where there is none, or where it is too long.
pub fn argument<'a>(rt: &HostRuntime, place: Option<usize>, room: &'a mut [u8]) -> &'a [u8] {
    let n = match place {
        Some(i) => rt.arg(i, room).unwrap_or(0),
        None => 0,
    };
    &room[..n]
}

// The command that the first argument names.
fn first(rt: &HostRuntime) -> Result<Command, Refused> {
    let mut room = io::buffer();
    let word = argument(rt, Some(1), &mut room);
    match Command::named(word) {
        Some(command) => Ok(command),
        None => Err(refuse::word(
            rt,
            word,
            b"' is no command (zlf help lists them)\n",
            facts::NONE,
        )),
    }
}

// Takes in the arguments.
pub fn given(rt: &HostRuntime) -> Result<Call, Refused> {
    let mut call = Call::of(first(rt)?);
    for i in 2..usize::MAX {
        let mut room = io::buffer();
        match rt.arg(i, &mut room) {
            Ok(n) => call = call.with_argument(rt, &room[..n], i)?,
            Err(FillError::NotPresent) => break,
            Err(FillError::TooLong) => {
                return Err(refuse::call(rt, b"an argument is over 4,096 bytes long\n"));
            }
        }
    }
    match call.lack() {
        Some(text) => Err(refuse::call(rt, text)),
        None => Ok(call),
    }
}
