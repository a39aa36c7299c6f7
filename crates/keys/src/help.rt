// What `--help` and `--version` say. What cannot be written is passed over.
const HELP: &str = "\
keys [--] [FILE..]: the key of each FEN text

Reads FEN texts, one per line, from the files named, or from standard input if none is
named or where a file is -, and writes one line for each, in order: its key, which is
the one FEN of its position, or
  ! 18 OFFSET    the text has fewer than four tokens; the offset is its length
  ! 19 OFFSET    the byte there is the first that may not stand in a placement
  ! 20 OFFSET    the token that starts there is not a side: not w, W, b or B
  ! long         the line has more than 131071 bytes
Offsets count the bytes of the line from 0.
An empty line is a text like any other, and a carriage return is part of its line.
A last line without a newline counts if it has a byte; one cut short by a failed read
does not, and is dropped.

  -h, --help    prints this help
  --version     prints the version
  --            ends the options: what follows are files

Standard error names each file that cannot be opened or read (the others are read) and
gives the number of lines at every million. The exit status is always 0: a script looks
at the last line of standard error, which counts the lines that were written whole,
  keys: 5 lines, 3 accepted, 2 refused
followed by \"; input incomplete\" if a file was not opened or read to its end, and by
\"; output incomplete: ..\" if a write failed. If it ends in \"refused\", all went well.
";

pub(crate) fn tell(rt: &impl Print) {
    let _ = rt.print(HELP);
}

pub(crate) fn tell_version(rt: &impl Print) {
    let _ = print!(rt; "keys (Menkhodur) {}\n", version::number());
}
