// What `words` of the kit come to, line by line and in ASCII. Each law is a contract.
ghost use Rattle.ascii_words.specs.Laws.{WordsOfAscii, RestartAtLineEnd, RestartInBytes};

/// The words of an ASCII text are those of a rule that reads four bytes. It does nothing: its
/// contract is a law of the definitions.
pub fn words_of_ascii()
    ensures { WordsOfAscii }
{}

/// The words of a line, a line feed and a rest are those of the line and those of the rest. It does
/// nothing: its contract is a law of the definitions.
pub fn restart_at_line_end()
    ensures { RestartAtLineEnd }
{}

/// The same of bytes that are read as UTF-8 with U+FFFD for what is malformed. It does nothing: its
/// contract is a law of the definitions.
pub fn restart_in_bytes()
    ensures { RestartInBytes }
{}
