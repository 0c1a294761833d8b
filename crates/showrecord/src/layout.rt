// The layout of the four records and the words for what their bytes say; the walk over an accepted record by it.
ghost use Rattle.std.specs.Prelude.{length};
ghost use Rattle.std.specs.Iterator.{at_most};

use offence::Kind;
use std::io;

// A rule stands on a line: its letter, `=`, and its items. The lines stand by their letters, from A on. Bars part the choices of a
// rule, which stand by the format's numbers. An item is a word of letters and blanks, which is printed, or a mark:
//
//     @   a new line: the place, then two blanks for each depth         +   what follows is one deeper
//     `   a string, in backquotes                                       ~   a span
//     /   a byte, as a number                                           :   which turn of a count this is, from 0 on
//     #X  a count, and so often the rule X                              %X  the same of a count in two bytes
//     ?X  a byte, and its choice of the rule X                          &X  the rule X, once
//     (X  where the byte is 0 that byte and the first choice of X, else the second
//     *X  a span and the byte behind it, whose choice of X is printed first, as a word
//     {   a window, in units of Z; in version 1 it has no bytes
//     ;   a string      =  a signed number      <  a decimal      >  a boolean      ,  an operator: of version 3, below it no bytes
//
// A to D are what stands behind the version of the four records. X has their names, Y says why a record is refused and, behind
// a semicolon, what ends where that shows; each choice of a rule that is said as a word has a bar behind it.
static TABLE: [u8; 2154] = *b"
A=+@entity types%E@actions%H
B=+@?J
C=+@principal narrowing ?T@resource narrowing ?T@targets#U
D=+@scope?W@path#L@position of the target /
E=+@entity type `+@ancestors#I@attributes#F
F=+@attribute `+@?G
G=Long|String|Bool|extension `|set+@?G|set without element|record#F|entity `|several entities|any entity|Never
H=+@action of type `+@id `@principals#I@resources#I@context ?G
I=+@`
J=-|and~+@?J@?J|or~+@?J@?J|not~+@?J|formerly~{+@?J|previous~{+@?J|since~{+@?J@?J|predicate~+@own~@namespace#I@action `@arguments#K|comparison*O+@?Q@?Q|exists~&N+@?J|tp~+@slot?M|call~|SigilRef~|refine~+@?J
K=+@argument `+@field path#L@?Q
L= `
M= `| ParamRef| BinderRef
N=+@binder?M+@annotation(P
O= <=| <| >=| >| ==| !=|
P= timepoint|#L
Q=-|entity `;|integer=|decimal<|string;|boolean>|context field#L|scope field#L|variable `|wildcard|array#R|aggregate?S|arithmetic,+@?Q@?Q|ParamRef|BinderRef
R=+@?Q
S=-| sum~+@summand?M@binders#N@?J| count~+@binders#N@?J| call~
T=none|any|is type `|uid of type `|uid with membership of type `
U=+@target :(V+@id `
V= without namespace| namespace `
W= principal| resource
X=-|schema record|condition record|targets record|path record|
Y=-|the record has more than 32,768 bytes|the bytes end before a field does; they end|the first three bytes are no record's mark (DWS, DWC, DWT, DWP); the field that shows it ends|the version is not read: 1, or up to 3 of a condition record; the field that shows it ends|a kind, type, operator or other choice byte is not defined; the field that shows it ends|a string is not of its class: the path name, the identifier or the plain text that must stand there; the field that shows it ends|conditions, terms or types are nested deeper than 32 levels; the field that shows it ends|the names of a list do not ascend; the field that shows it ends|an aggregate stands below an array; the field that shows it ends|bytes stand behind the end of the record; the record ends|-|-|a window is below 0 or above 2^63 - 1 seconds; its amount ends|-|the text of a decimal is malformed; it ends|a decimal is well formed but beyond 64 bits; its text ends|
Z= second| minute| hour| day| seconds| minutes| hours| days|
";

// No accepted record is as deep: it has 32 levels, and each adds at most three rules.
const DEEPEST: usize = 150;

// More blanks than the deepest line has.
static BLANKS: [u8; 512] = [b' '; 512];

// A choice of the rule of a letter; no bytes where there is none.
fn choice(letter: u8, number: usize) -> &'static [u8] {
    let line = usize::from(letter.wrapping_sub(b'@'));
    let Some([_, b'=', rule @ ..]) = TABLE.split(|b| *b == b'\n').nth(line) else {
        return b"";
    };
    rule.split(|b| *b == b'|').nth(number).unwrap_or(b"")
}

// A choice of a rule, as a word.
pub fn say(out: &impl Print, letter: u8, number: usize) -> io::Result<()> {
    out.write_all(choice(letter, number))
}

// Whether a byte of a rule is a mark, and not one of a word.
fn is_mark(b: u8) -> bool {
    b != b' ' && !b.is_ascii_alphabetic()
}

// How many bytes stand in an item behind its first: the letter of a rule, or what is left of a
// word.
fn more(first: u8, behind: &[u8]) -> usize {
    match first {
        b'#' | b'%' | b'?' | b'&' | b'(' | b'*' => 1,
        mark if is_mark(mark) => 0,
        _ => behind.iter().take_while(|b| !is_mark(**b)).count(),
    }
}

// The items of a rule, one after another.
#[derive(Clone, Copy)]
struct Items<'a>(&'a [u8]);

impl<'a> Iterator for Items<'a> {
    type Item = &'a [u8];

    ghost remaining = { λ items. at_most (length items.0.now) };

    fn next(&mut self) -> Option<&'a [u8]> {
        let (first, behind) = self.0.split_first()?;
        let (item, rest) = self.0.split_at(1 + more(*first, behind).min(behind.len()));
        self.0 = rest;
        Some(item)
    }
}

// Where the walk stands: the place in the record, and the depth.
#[derive(Clone, Copy)]
struct Spot {
    at: usize,
    depth: usize,
}

impl Spot {
    // As many bytes further on.
    fn past(self, bytes: usize) -> Spot {
        Spot {
            at: self.at.saturating_add(bytes),
            ..self
        }
    }
}

// An item as it was shown: where the walk stands behind it, and the rule that it names, with how
// often. An item that names no rule has the count 0, so that the loop over its turns makes none: an
// Option would be opened in that one place.
#[derive(Clone, Copy)]
struct Item {
    spot: Spot,
    rule: &'static [u8],
    count: usize,
}

// A record that is walked, and where it is shown. No place in it comes near the largest number.
#[derive_where(Clone, Copy)]
struct Walk<'a, P> {
    out: &'a P,
    record: &'a [u8],
}

impl<'a, P: Print> Walk<'a, P> {
    fn byte(&self, at: usize) -> usize {
        names::byte_at(self.record, at)
    }

    fn version(&self) -> usize {
        names::u16_at(self.record, 3)
    }

    // The front of a line: the place, whose five digits end in one column, and two blanks for each
    // depth. The output is not buffered, so all blanks are one write: a line makes two, however deep
    // it stands.
    fn line(&self, spot: Spot) -> io::Result<()> {
        print!(self.out; "\n{:5} ", spot.at)?;
        let blanks = spot.depth.saturating_mul(2);
        self.out.write_all(names::part_of(&BLANKS, 0, blanks))
    }

    // A string; the place behind it.
    fn text(&self, at: usize) -> io::Result<usize> {
        self.out.write_all(names::word(self.record, at))?;
        Ok(at.saturating_add(1).saturating_add(self.byte(at)))
    }

    // A string in backquotes; the place behind it.
    fn name(&self, at: usize) -> io::Result<usize> {
        self.out.write_all(b"`")?;
        let behind = self.text(at)?;
        self.out.write_all(b"`")?;
        Ok(behind)
    }

    // A span; the place behind it.
    fn span(&self, at: usize) -> io::Result<usize> {
        let start = program::u32_at(self.record, at);
        let end = program::u32_at(self.record, at.saturating_add(4));
        print!(self.out; " span {start}..{end}")?;
        Ok(at.saturating_add(8))
    }

    // A window; the place behind it. Z has a unit's word for one of it, and four choices further
    // for several.
    fn window(&self, at: usize) -> io::Result<usize> {
        if self.version() <= 1 {
            return Ok(at);
        }
        if self.byte(at) == 1 {
            self.out.write_all(b" within ParamRef")?;
            return Ok(at.saturating_add(1));
        }
        let unit = self.byte(at.saturating_add(1));
        let amount = program::u64_at(self.record, at.saturating_add(2));
        print!(self.out; " within {amount}")?;
        say(
            self.out,
            b'Z',
            unit.saturating_add(if amount == 1 { 0 } else { 4 }),
        )?;
        Ok(at.saturating_add(10))
    }

    // What version 3 brought, by its mark; the place behind it.
    fn later(&self, mark: u8, at: usize) -> io::Result<usize> {
        if self.version() <= 2 {
            return Ok(at);
        }
        self.out.write_all(b" ")?;
        match mark {
            b';' => self.name(at),
            b'<' => self.text(at),
            b'=' => self.signed(at),
            b'>' => self.truth(at),
            _ => self.operator(at),
        }
    }

    // A signed number; the place behind it.
    fn signed(&self, at: usize) -> io::Result<usize> {
        self.out
            .print(program::u64_at(self.record, at).cast_signed())?;
        Ok(at.saturating_add(8))
    }

    fn truth(&self, at: usize) -> io::Result<usize> {
        self.out.print(self.byte(at) != 0)?;
        Ok(at.saturating_add(1))
    }

    fn operator(&self, at: usize) -> io::Result<usize> {
        self.out.print(match self.byte(at) {
            0 => '+',
            1 => '-',
            _ => '*',
        })?;
        Ok(at.saturating_add(1))
    }

    // What a mark that names no rule stands for; the place behind it.
    // Marks stay bytes and no enum: they stand in the table as letters do, and an enum of them would
    // be made from the byte and matched at once.
    fn value(&self, mark: u8, spot: Spot, turn: usize) -> io::Result<usize> {
        let at = spot.at;
        match mark {
            b'@' => self.line(spot).map(|_| at),
            b':' => self.out.print(turn).map(|_| at),
            b'`' => self.name(at),
            b'~' => self.span(at),
            b'{' => self.window(at),
            b';' | b'=' | b'<' | b'>' | b',' => self.later(mark, at),
            _ => self.out.print(self.byte(at)).map(|_| at.saturating_add(1)),
        }
    }

    // What a mark that names a rule shows of itself, and the choice of the rule.
    fn refer(&self, mark: u8, letter: u8, spot: Spot) -> io::Result<Item> {
        let b = self.byte(spot.at);
        let (behind, number, count) = match mark {
            b'#' => (1, 0, b),
            b'%' => (2, 0, names::u16_at(self.record, spot.at)),
            b'?' => (1, b, 1),
            b'&' => (0, 0, 1),
            b'*' => return self.spanned(letter, spot),
            _ if b == 0 => (1, 0, 1),
            _ => (0, 1, 1),
        };
        if matches!(mark, b'#' | b'%') {
            print!(self.out; " ({count})")?;
        }
        Ok(Item {
            spot: spot.past(behind),
            rule: choice(letter, number),
            count,
        })
    }

    // A span and the byte behind it, whose choice of the rule is printed first.
    fn spanned(&self, letter: u8, spot: Spot) -> io::Result<Item> {
        say(self.out, letter, self.byte(spot.past(8).at))?;
        self.span(spot.at)?;
        Ok(Item {
            spot: spot.past(9),
            rule: b"",
            count: 0,
        })
    }

    // Shows an item: a word, or what its mark stands for.
    fn item(&self, item: &[u8], spot: Spot, turn: usize) -> io::Result<Item> {
        let mut shown = Item {
            spot,
            rule: b"",
            count: 0,
        };
        match item {
            [b'+'] => shown.spot.depth = spot.depth.saturating_add(1),
            [mark] if is_mark(*mark) => shown.spot.at = self.value(*mark, spot, turn)?,
            [mark, letter] if is_mark(*mark) => return self.refer(*mark, *letter, spot),
            word => self.out.write_all(word)?,
        }
        Ok(shown)
    }

    // Shows a rule's items, at most so many rules deep; the place in the record behind them.
    fn items(
        &self,
        rule: &'static [u8],
        start: Spot,
        turn: usize,
        left: usize,
    ) -> io::Result<usize> {
        let mut spot = start;
        if left == 0 {
            return Ok(spot.at);
        }
        for item in Items(rule) {
            let shown = self.item(item, spot, turn)?;
            spot = shown.spot;
            for i in 0..shown.count {
                spot.at = self.items(shown.rule, spot, i, left - 1)?;
            }
        }
        Ok(spot.at)
    }

    // The walk must come to the record's end.
    fn last(&self, at: usize) -> io::Result<()> {
        self.line(Spot { at, depth: 0 })?;
        self.out.write_all(b"end")?;
        if at != self.record.len() {
            self.out.write_all(
                b" OF THE WALK IS NOT THE END OF THE RECORD: what is printed above is wrong",
            )?;
        }
        self.out.write_all(b"\n")
    }
}

// The lines of an accepted record, whose mark and version have five bytes.
pub fn show(out: &impl Print, record: &[u8], kind: Kind) -> io::Result<()> {
    let number = u8::from(kind);
    let walk = Walk { out, record };
    walk.line(Spot { at: 0, depth: 0 })?;
    say(out, b'X', usize::from(number))?;
    print!(out; ", version {}, {} bytes", walk.version(), record.len())?;
    let start = Spot { at: 5, depth: 0 };
    let end = walk.items(choice(number.wrapping_add(b'@'), 0), start, 0, DEEPEST)?;
    walk.last(end)
}
