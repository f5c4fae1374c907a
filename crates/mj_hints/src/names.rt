// The words of the language, in capitals.

/// The functions.
pub const FUNCTIONS: [&[u8]; 17] = [
    b"$ASCII",
    b"$CHAR",
    b"$DATA",
    b"$EXTRACT",
    b"$FIND",
    b"$GET",
    b"$JUSTIFY",
    b"$LENGTH",
    b"$NAME",
    b"$ORDER",
    b"$PIECE",
    b"$QLENGTH",
    b"$QSUBSCRIPT",
    b"$QUERY",
    b"$REVERSE",
    b"$SELECT",
    b"$TRANSLATE",
];

/// The special variables.
pub const VARIABLES: [&[u8]; 7] = [
    b"$IO",
    b"$JOB",
    b"$TEST",
    b"$TLEVEL",
    b"$TRESTART",
    b"$X",
    b"$Y",
];

/// The commands.
pub const COMMANDS: [&[u8]; 24] = [
    b"SET",
    b"WRITE",
    b"HALT",
    b"HANG",
    b"JOB",
    b"LOCK",
    b"KILL",
    b"MERGE",
    b"IF",
    b"ELSE",
    b"FOR",
    b"DO",
    b"GOTO",
    b"QUIT",
    b"NEW",
    b"OPEN",
    b"USE",
    b"CLOSE",
    b"READ",
    b"TSTART",
    b"TCOMMIT",
    b"TRESTART",
    b"TROLLBACK",
    b"BREAK",
];
