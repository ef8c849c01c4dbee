//! Inputs of as many octets as a command reads, of one more, and of some that it leaves.

use crate::run::TO_THE_END;
use crate::same::same_at;
use gptp_commands::check::check;
use gptp_commands::compare::compare_lines;
use gptp_commands::failure::Status;
use gptp_commands::run::run;
use gptp_commands::sink::CountedWriter;
use gptp_samples::TWO;
use std::test::Fail;

/// What reads the octets: a command, or `check` as its certificate.
#[derive(Clone, Copy, Debug)]
enum Input {
    Lines,
    Document,
    Certificate,
}

/// What is answered to so many digits, and how many octets are left.
const ANSWERS: [(Input, usize, &str, usize); 9] = [
    (Input::Lines, 1_048_576, "refused words\n", 0),
    (Input::Lines, 1_048_577, "refused size\n", 0),
    (Input::Lines, 1_048_600, "refused size\n", 23),
    (Input::Document, 33_554_432, "refused 1 NotToml\n", 0),
    (Input::Document, 33_554_433, "refused 11 TooMany\n", 0),
    (Input::Document, 33_554_440, "refused 11 TooMany\n", 7),
    (
        Input::Certificate,
        1_048_576,
        "certificate refused 1 Head\n",
        0,
    ),
    (
        Input::Certificate,
        1_048_577,
        "certificate refused 2 Line\n",
        0,
    ),
    (
        Input::Certificate,
        1_048_580,
        "certificate refused 2 Line\n",
        3,
    ),
];

#[test]
fn an_input_is_read_to_its_size(rt: HostRuntime) -> Result<(), Fail> {
    let alloc = rt.alloc();
    for (input, length, want, left) in ANSWERS {
        let octets = vec![in alloc; b'0'; length]?;
        let mut source = octets.as_slice();
        let mut document = TWO.as_bytes();
        let mut written = Vec::new(alloc);
        let mut sink = CountedWriter::new(&mut written);
        let status = match input {
            Input::Lines => compare_lines(alloc, &mut source, &mut sink)?,
            Input::Document => run(alloc, &mut source, &mut sink, &TO_THE_END)?,
            Input::Certificate => check(alloc, &mut document, &mut source, &mut sink, None)?,
        };
        same_at(&rt, &(input, length), written.as_slice(), want.as_bytes());
        same_at(&rt, &(input, length), status, Status::Refused);
        same_at(&rt, &(input, length), source.len(), left);
    }
    Ok(())
}
