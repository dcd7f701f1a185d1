// The one table of tags: each with its body length and the files in which it stands.
ghost use Rattle.std.specs.Prelude.{◌≡◌, Some};
ghost use Rattle.field.specs.Tags.{knows, known_of, length_of, is_allowed};

// The kinds of files.
#[derive(Clone, Copy, PartialEq, Eq)]
pub enum File {
    Question,
    Answer,
    // A report is written and never read.
    Report,
}

// The files in which a tag stands.
#[derive(Clone, Copy)]
pub enum Home {
    In(File),
    Every,
}

// How long the body of a tag that a file knows is.
#[derive(Clone, Copy)]
pub enum BodyLength {
    Fixed(usize),
    // The length depends on the question and the classes.
    Depends,
}

// A tag, its body length, and the files in which it stands.
#[derive(Clone, Copy)]
pub struct Entry(pub u8, pub BodyLength, pub Home);

const FIELDS: [Entry; 17] = [
    Entry(0x01, BodyLength::Fixed(2), Home::In(File::Question)),
    Entry(0x10, BodyLength::Fixed(2), Home::In(File::Question)),
    Entry(0x11, BodyLength::Fixed(2), Home::In(File::Question)),
    Entry(0x12, BodyLength::Fixed(2), Home::In(File::Question)),
    Entry(0x13, BodyLength::Fixed(2), Home::In(File::Question)),
    Entry(0x20, BodyLength::Fixed(2), Home::In(File::Question)),
    Entry(0x21, BodyLength::Fixed(2), Home::In(File::Question)),
    Entry(0x22, BodyLength::Fixed(1), Home::In(File::Question)),
    Entry(0x23, BodyLength::Fixed(2), Home::In(File::Question)),
    Entry(0x30, BodyLength::Fixed(3), Home::In(File::Question)),
    Entry(0x31, BodyLength::Fixed(3), Home::In(File::Question)),
    Entry(0x32, BodyLength::Fixed(3), Home::In(File::Question)),
    Entry(0x40, BodyLength::Fixed(1), Home::In(File::Answer)),
    Entry(0x41, BodyLength::Depends, Home::In(File::Answer)),
    Entry(0x42, BodyLength::Depends, Home::In(File::Answer)),
    Entry(0x44, BodyLength::Fixed(3), Home::In(File::Report)),
    Entry(0x7f, BodyLength::Fixed(0), Home::Every),
];

// Does a kind of file know the tags that stand there.
fn is_home(file: File, home: Home) -> bool
    ensures { result ≡ knows file home }
{
    match home {
        Home::In(own) => file == own,
        Home::Every => true,
    }
}

// What a file knows of an entry's tag.
fn known_of(file: File, e: Entry) -> Option<BodyLength>
    ensures { result ≡ known_of file e }
{
    is_home(file, e.2).then_some(e.1)
}

// What a file knows of a tag: nothing, if the tag is not one of its own.
pub fn length_of(file: File, tag: u8) -> Option<BodyLength>
    ensures { result ≡ length_of file tag }
{
    let e = FIELDS.iter().find(|e| e.0 == tag)?;
    known_of(file, *e)
}

impl BodyLength {
    // May a body be this long, where a length that depends is `size`.
    pub(crate) fn is_allowed(self, size: usize, length: usize) -> bool
        ensures { result ≡ is_allowed (Some self) size length }
    {
        match self {
            BodyLength::Fixed(due) => length == due,
            BodyLength::Depends => length == size,
        }
    }
}
