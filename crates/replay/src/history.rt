// A history of a stepping check. It begins with the rules and the space of the list; then come the
// list at the start and at the end, and the calls.
ghost use Rattle.std.specs.Prelude.{◌<◌, length};
ghost use Rattle.std.specs.Iterator.{at_most};

use crate::cases::{behind_head, letter, same_numbers, same_output};
use crate::{unvisited, written};
use dogwood::{CheckAnswer, Stepped, Steps};

// A history that is replayed: the records, the list of targets in its space, and what it has come
// to: the last answer, the state, and how long the list is. The buffer is lent beside it: with the
// buffer as a field too, the borrow checker does not cover a step, to which both go. The length
// stands beside the list, since `dogwood_steps_append` takes the two so.
#[derive(Drop)]
struct Course<'a, 'b> {
    schema: &'a [u8],
    condition: &'a [u8],
    list: &'b mut [u8],
    answer: CheckAnswer,
    state: Steps,
    length: usize,
}

// The calls of a history, each from its letter and its numbers on, with its argument.
#[derive(Clone, Copy)]
struct Calls<'a>(&'a [u8]);

impl<'a> Iterator for Calls<'a> {
    type Item = (&'a [u8], &'a [u8]);

    ghost remaining = { λ calls. at_most (length calls.0.now) };

    fn next(&mut self) -> Option<(&'a [u8], &'a [u8])> {
        let head = self.0;
        if head.is_empty() {
            return None;
        }
        let (argument, rest) = behind_head(head);
        self.0 = rest;
        Some((head, argument))
    }
}

// The last answer of a history, where all of them and the list are as they should be: the list is
// put into its space, the check is started, and all calls are made, those behind an answer that is
// another too. A history that ends before its lists do has empty ones.
pub(crate) fn in_steps<'a>(
    schema: &'a [u8],
    condition: &'a [u8],
    history: &[u8],
    buffer: &mut [u8],
) -> Option<CheckAnswer> {
    let mut space = [0xA5; 8192];
    let (targets, others) = program::split_field(history.get(3..).unwrap_or(&[]));
    let (wanted, calls) = program::split_field(others);
    let list = space.get_mut(..names::u16_at(history, 1))?;
    list.get_mut(..targets.len())?.copy_from_slice(targets);
    let Stepped { answer, state } = dogwood::dogwood_steps_start(
        letter(history),
        schema,
        condition,
        targets,
    );
    let mut course = Course {
        schema,
        condition,
        list,
        answer,
        state,
        length: targets.len(),
    };
    let mut agrees = true;
    for (head, argument) in Calls(calls) {
        course.call(letter(head), argument, buffer);
        agrees = agrees && same_numbers(head, course.answer);
    }
    let answer = course.answer;
    (agrees && same_output(wanted, &space)).then_some(answer)
}

impl<'a, 'b> Course<'a, 'b> {
    // The call of a letter: a step, a target appended, a position withdrawn, the rule changed. A
    // start is what there is already.
    fn call(&mut self, letter: u8, argument: &[u8], buffer: &mut [u8]) {
        match letter {
            b's' => self.step(buffer),
            b'a' => self.append(argument),
            b'w' => self.withdraw(argument),
            b'm' => self.move_rule(),
            _ => {},
        }
    }

    // What a call has come to, the list being as long as it was.
    fn come_to(&mut self, stepped: Stepped) {
        self.answer = stepped.answer;
        self.state = stepped.state;
    }

    // The fields are read before the list is lent: the borrow checker does not cover a reading of
    // them behind it.
    fn step(&mut self, buffer: &mut [u8]) {
        let (schema, condition) = (self.schema, self.condition);
        let (state, length) = (self.state, self.length);
        let targets = names::part_of(self.list, 0, length);
        let stepped = dogwood::dogwood_steps_step(schema, condition, targets, state, buffer);
        self.come_to(stepped);
    }

    fn withdraw(&mut self, argument: &[u8]) {
        let (state, length) = (self.state, self.length);
        let targets = names::part_of(self.list, 0, length);
        let stepped = dogwood::dogwood_steps_withdraw(targets, state, letter(argument));
        self.come_to(stepped);
    }

    // The rule changed: nothing is answered, and a list has zeros in the place of an answer.
    fn move_rule(&mut self) {
        self.answer = written(0, 0);
        self.state = dogwood::dogwood_steps_move(self.state);
    }

    // A target appended: where it is refused the list is as long as it was.
    fn append(&mut self, target: &[u8]) {
        self.answer = unvisited(dogwood::dogwood_steps_append(self.list, self.length, target));
        if self.answer.number == 0 {
            self.length = self.answer.count;
        }
    }
}
