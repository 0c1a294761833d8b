// The cases of a list, one after another, and what is asked of an answer.
ghost use Rattle.std.specs.Prelude.{◌<◌, length};
ghost use Rattle.std.specs.Iterator.{at_most};

use dogwood::CheckAnswer;

// A case: the list from its letter and its numbers on, what it puts out, and its records.
#[derive(Clone, Copy)]
pub struct Case<'a> {
    pub head: &'a [u8],
    pub output: &'a [u8],
    pub first: &'a [u8],
    pub second: &'a [u8],
    pub third: &'a [u8],
}

impl<'a> Case<'a> {
    pub(crate) fn letter(self) -> u8 {
        letter(self.head)
    }
}

// The letter in front of some bytes; that of a heading where there are none.
pub(crate) fn letter(bytes: &[u8]) -> u8 {
    bytes.first().copied().unwrap_or(b'#')
}

// The first field of a case, behind the nine bytes of its letter and its numbers, and what follows
// it.
pub(crate) fn behind_head(list: &[u8]) -> (&[u8], &[u8])
    ensures { 0 < length list.now → length result.1.now < length list.now }
{
    program::split_field(list.get(9..).unwrap_or(&[]))
}

// The case in front of a list, and what follows it.
fn split_case(list: &[u8]) -> (Case<'_>, &[u8])
    ensures { 0 < length list.now → length result.1.now < length list.now }
{
    let (output, records) = behind_head(list);
    let (first, others) = program::split_field(records);
    let (second, last) = program::split_field(others);
    let (third, rest) = program::split_field(last);
    let case = Case {
        head: list,
        output,
        first,
        second,
        third,
    };
    (case, rest)
}

// The cases from the front of a list on.
#[derive(Clone, Copy)]
pub struct Cases<'a>(pub &'a [u8]);

impl<'a> Iterator for Cases<'a> {
    type Item = Case<'a>;

    ghost remaining = { λ cases. at_most (length cases.0.now) };

    fn next(&mut self) -> Option<Case<'a>> {
        if self.0.is_empty() {
            return None;
        }
        let (case, rest) = split_case(self.0);
        self.0 = rest;
        Some(case)
    }
}

// Whether an answer has the numbers behind a letter. They are compared one by one as they stand in
// the bytes: an answer made of them would have to be made with casts, for one comparison.
pub(crate) fn same_numbers(head: &[u8], answer: CheckAnswer) -> bool {
    usize::from(answer.number) == names::byte_at(head, 1)
        && usize::from(answer.record) == names::byte_at(head, 2)
        && answer.count == names::u16_at(head, 3)
        && answer.visits == names::u16_at(head, 7)
}

// A buffer as it is before each call. No case asks for a larger one.
static UNTOUCHED: [u8; 8192] = [0xA5; 8192];

// Whether a buffer has an output in front, and is else as it was. What is left of it is long, and
// `names::same` compares eight bytes at a time.
pub(crate) fn same_output(output: &[u8], buffer: &[u8]) -> bool {
    match buffer.strip_prefix(output) {
        Some(rest) => names::same(rest, names::part_of(&UNTOUCHED, 0, rest.len())),
        None => false,
    }
}
