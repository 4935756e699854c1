//! The commands of the program, each with its arguments.

ghost use Rattle.std.specs.Prelude.{◌≡◌, map};
ghost use Rattle.bsp_words.specs.CommandLine.{book_shapes, file_shapes, text_shapes};
ghost use Rattle.bsp_words.specs.Commands.{shape_at};

/// How an argument is given.
pub(crate) enum Form {
    /// A word.
    Word,
    /// The flag `--ID`.
    Flag,
    /// The option `--ID VALUE`, with the name of its value.
    Named(&'static str),
    /// Such an option that may come more than once.
    Repeated(&'static str),
    /// Such an option with a number from the least to the most.
    Number {
        value: &'static str,
        least: u32,
        most: u32,
    },
    /// Such an option with a number from the least to the most, which is the default where it is absent.
    Limit {
        value: &'static str,
        least: u32,
        most: u32,
        default: &'static str,
    },
}

/// An argument of a command.
pub(crate) struct Argument {
    /// Its name.
    pub(crate) id: &'static str,
    pub(crate) form: Form,
    /// Whether it must be there.
    pub(crate) required: bool,
    pub(crate) help: &'static str,
}

/// A command.
pub(crate) struct CommandRow {
    pub(crate) name: &'static str,
    pub(crate) about: &'static str,
    /// What follows its help.
    pub(crate) example: &'static str,
    pub(crate) arguments: &'static [Argument],
}

const QUIET: Argument = Argument {
    id: "quiet",
    form: Form::Flag,
    required: false,
    help: "says nothing of the file on standard error",
};

const FILE: Argument = Argument {
    id: "FILE",
    form: Form::Word,
    required: true,
    help: "the file, or - for standard input",
};

const BOOK: Argument = Argument {
    id: "FILE",
    form: Form::Word,
    required: true,
    help: "the file that keeps the book, which is not changed",
};

const TOKEN: Argument = Argument {
    id: "token",
    form: Form::Named("T"),
    required: false,
    help: "the office's token, of 16 to 64 letters and digits",
};

const TOKEN_FILE: Argument = Argument {
    id: "token-file",
    form: Form::Named("FILE"),
    required: false,
    help: "a file whose first line is the token: other users of the machine do not see it",
};

const DB: Argument = Argument {
    id: "db",
    form: Form::Named("FILE"),
    required: false,
    help: "the file that keeps the book, made where it is not there; without it the book is in memory",
};

/// The commands on a file that an agent or an airline has.
static FILES: [CommandRow; 3] = [
    CommandRow {
        name: "check",
        about: "Reads a RET file and prints its transactions and their sum, or its first fault. \
        It looks at the form alone: for verdicts see the command judge",
        example: "Example: bsp_office check samples/sale.ret",
        arguments: &[QUIET, FILE],
    },
    CommandRow {
        name: "hotcheck",
        about: "Reads a HOT file and prints its totals, or its first record at fault",
        example: "Example: bsp_office hotcheck --list 125.hot",
        arguments: &[
            QUIET,
            Argument {
                id: "list",
                form: Form::Flag,
                required: false,
                help: "prints a line for each document and memo, and the totals of each agent, too",
            },
            FILE,
        ],
    },
    CommandRow {
        name: "judge",
        about: "Prints the verdicts that an office would give on an agent's RET file, and its net",
        example: "Example: bsp_office judge --plan samples/plan.toml --day 2024-01-05 --agent 12345675 \
        --stock 1300000000-1300000099 samples/sale.ret",
        arguments: &[
            Argument {
                id: "plan",
                form: Form::Repeated("PLAN"),
                required: true,
                help: "a published plan text, the earliest first",
            },
            Argument {
                id: "day",
                form: Form::Named("DAY"),
                required: true,
                help: "the business day, as 2024-01-05",
            },
            Argument {
                id: "agent",
                form: Form::Named("A"),
                required: true,
                help: "the agent, eight digits",
            },
            Argument {
                id: "stock",
                form: Form::Repeated("FIRST-LAST"),
                required: true,
                help: "a range of its numbers, as 1300000000-1300000099",
            },
            Argument {
                id: "file",
                form: Form::Repeated("EARLIER"),
                required: false,
                help: "a RET file reported before, the earliest first",
            },
            Argument {
                id: "closed",
                form: Form::Repeated("PERIOD"),
                required: false,
                help: "a period that the office closed after the earlier files before it",
            },
            Argument {
                id: "statement",
                form: Form::Named("PERIOD"),
                required: false,
                help: "prints the agent's statement of this period, as if it were closed now, too",
            },
            FILE,
        ],
    },
];

/// The commands on a text.
static TEXTS: [CommandRow; 3] = [
    CommandRow {
        name: "plan",
        about: "Tries a plan text: prints what it publishes, or why it is refused",
        example: "Example: bsp_office plan --after samples/plan.toml next-month.toml",
        arguments: &[
            Argument {
                id: "after",
                form: Form::Repeated("PUBLISHED"),
                required: false,
                help: "a text published before, the earliest first",
            },
            Argument {
                id: "day",
                form: Form::Named("DAY"),
                required: false,
                help: "the business day on which the text is published; without it 2000-01-01",
            },
            Argument {
                id: "of",
                form: Form::Named("BOOK"),
                required: false,
                help: "prints the plan of the book in this file instead, as a text; the book is not changed",
            },
            Argument {
                id: "FILE",
                form: Form::Word,
                required: false,
                help: "the file, or - for standard input; it is there unless --of is",
            },
        ],
    },
    CommandRow {
        name: "body",
        about: "Tries the body of a request without an office: prints OK, or the code of the refusal",
        example: "Example: bsp_office body 'POST /office/day' day.json",
        arguments: &[
            Argument {
                id: "REQUEST",
                form: Form::Word,
                required: true,
                help: "the method and the target in one word, as 'POST /office/day'",
            },
            FILE,
        ],
    },
    CommandRow {
        name: "explain",
        about: "Explains a code: what it means, when it comes, and what to do",
        example: "Example: bsp_office explain E07",
        arguments: &[Argument {
            id: "CODE",
            form: Form::Word,
            required: false,
            help: "a letter and two digits, as E07; without it all codes are listed",
        }],
    },
];

/// The commands over a book.
static BOOKS: [CommandRow; 3] = [
    CommandRow {
        name: "audit",
        about: "Reads the book in a file and prints what it has, or what is wrong with it",
        example: "Example: bsp_office audit office.db",
        arguments: &[BOOK],
    },
    CommandRow {
        name: "run",
        about: "Serves one connection of HTTP on standard input and output",
        example: "Example: bsp_office run --token-file office.token --db office.db",
        arguments: &[TOKEN, TOKEN_FILE, DB],
    },
    CommandRow {
        name: "serve",
        about: "Serves HTTP on a port of 127.0.0.1, many connections at once",
        example: "Example: bsp_office serve --port 8080 --token-file office.token --db office.db",
        arguments: &[
            Argument {
                id: "port",
                form: Form::Number {
                    value: "N",
                    least: 1,
                    most: 65_535,
                },
                required: true,
                help: "the port, from 1 to 65535",
            },
            TOKEN,
            TOKEN_FILE,
            DB,
            Argument {
                id: "connections",
                form: Form::Limit {
                    value: "K",
                    least: 1,
                    most: 1_000_000,
                    default: "1000000",
                },
                required: false,
                help: "how many connections to serve, from 1 to 1000000",
            },
            Argument {
                id: "peers",
                form: Form::Limit {
                    value: "N",
                    least: 1,
                    most: 10_000,
                    default: "256",
                },
                required: false,
                help: "how many of them at once, from 1 to 10000",
            },
            Argument {
                id: "timeout",
                form: Form::Limit {
                    value: "S",
                    least: 0,
                    most: 3600,
                    default: "30",
                },
                required: false,
                help: "how many seconds a message may take, from 1 to 3600; with 0 without end",
            },
            Argument {
                id: "idle",
                form: Form::Limit {
                    value: "S",
                    least: 0,
                    most: 3600,
                    default: "60",
                },
                required: false,
                help: "how many seconds a connection may be between messages; with 0 without end",
            },
            Argument {
                id: "log",
                form: Form::Flag,
                required: false,
                help: "prints a line for each reply on standard error",
            },
        ],
    },
];

/// The first commands of the program's help, in their order.
pub(crate) fn file_commands() -> &'static [CommandRow]
    ensures { map shape_at result.now ≡ file_shapes }
{
    &FILES
}

/// Those that follow them.
pub(crate) fn text_commands() -> &'static [CommandRow]
    ensures { map shape_at result.now ≡ text_shapes }
{
    &TEXTS
}

/// The last of them.
pub(crate) fn book_commands() -> &'static [CommandRow]
    ensures { map shape_at result.now ≡ book_shapes }
{
    &BOOKS
}
