/// What a fault of a line is, and what its reader can do, by the reason that the program wrote.
pub fn advise(reason: &[u8]) -> &'static str {
    match reason {
        b"long" => "a text or a line of it is longer than its limit (line 0 is the whole text)",
        b"limit" => "more lines, objects, actors, journals or bytes than a text may have",
        b"cut" => "the text ends here, without a newline or without the line `done` of journals",
        b"header" => {
            "not the first line of such a text: `pagerd-script 1` or `pagerd-script 2` for step, `pagerd-journal 1` or `pagerd-journal 2` for check; the line ends with a newline and no carriage return"
        }
        b"word" => {
            "no line of this form; look at the words, their number and the single spaces between them, and end lines with a newline and no carriage return"
        }
        b"name" => "a name is malformed, taken already, or not declared",
        b"number" => "a number is malformed or outside its bounds",
        b"bytes" => "a byte list is malformed or of the wrong length; it has runs as in 61*3+62*1",
        b"role" => {
            "this actor has no such line, or isn't bound to the object, or the object is of another kind or mode; an end names a begin exactly where the object is numbered"
        }
        b"left" => "this actor left the object in an earlier line",
        b"missing" => {
            "something is missing before it: the line `frames`, an object, a user or a pager of each object, or the line `steps`"
        }
        b"order" => "not the next position, or not the number of the entries before it",
        b"unbuilt" => {
            "in the grammar, but step doesn't do this form yet; check judges it in journals already"
        }
        _ => "a fault",
    }
}
