// The commands as received, and what the reader waits for between them.
// `Frame`, `Command`, `Look`, `Refused`, `Silent`, `ListPart`, `ListOpening` and `Opening` are words of the definitions: no code builds them.
use crate::settings::Pitch;

// The control bytes that are commands.
#[derive(Clone, Copy)]
pub enum Control {
    CarriageReturn,
    LineFeed,
    FormFeed,
    HorizontalTab,
    VerticalTab,
    Backspace,
    ShiftOut,
    ShiftIn,
    Dc2,
    Dc4,
}

// The escapes without an argument that change more than how a record looks: ESC 0 2 O P M g 6 7.
#[derive(Clone, Copy)]
pub enum Mode {
    EighthInchLine,
    SixthInchLine,
    NoSkip,
    Pitch(Pitch),
    UpperPrints(bool),
}

// The escapes with one argument byte that do, by their codes: ESC 3 A + SP p x W !.
#[derive(Clone, Copy)]
pub enum Parameter {
    Line180ths = 0x33,
    Line60ths = 0x41,
    Line360ths = 0x2B,
    Spacing = 0x20,
    Proportional = 0x70,
    Quality = 0x78,
    DoubleWidth = 0x57,
    Master = 0x21,
}

// The escapes without an argument that only show on a letter's record: ESC E F G H 4 5 T.
#[derive(Clone, Copy)]
pub enum Switch {
    Bold(bool),
    DoubleStrike(bool),
    Italic(bool),
    NoScript,
}

// The escapes with one argument byte that only show on a letter's record, by their codes: ESC S - w q t k R %.
#[derive(Clone, Copy)]
pub enum Choice {
    Script = 0x53,
    Underline = 0x2D,
    DoubleHeight = 0x77,
    Outline = 0x71,
    CodeTable = 0x74,
    Font = 0x6B,
    Country = 0x52,
    Download = 0x25,
}

// What changes only how a letter's record looks.
#[derive(Clone, Copy)]
pub enum Look {
    Switch(Switch),
    Choice(Choice, u8),
}

// The image commands that name no mode, by their codes: ESC K L Y Z.
#[derive(Clone, Copy)]
pub enum Density {
    Single = 0x4B,
    Double = 0x4C,
    DoubleSpeed = 0x59,
    Quadruple = 0x5A,
}

// The modes of images by their numbers: to 6 of eight dots a column, and from 32 of twenty-four.
#[derive(Clone, Copy)]
pub enum ImageMode {
    Single = 0,
    Double = 1,
    DoubleSpeed = 2,
    Quadruple = 3,
    Crt80 = 4,
    Crt90 = 6,
    Single24 = 32,
    Double24 = 33,
    Crt24 = 38,
    Triple24 = 39,
    Hex24 = 40,
}

// What opens an image: ESC K, L, Y, Z; or ESC * and a mode.
#[derive(Clone, Copy)]
pub enum Opening {
    Named(Density),
    Selected(ImageMode),
}

// The escapes that open a stop list by themselves, by their codes: ESC D, ESC B.
#[derive(Clone, Copy)]
pub enum Tabs {
    Horizontal = 0x44,
    Vertical = 0x42,
}

// What opens a stop list: ESC D, ESC B; or ESC b and a channel.
#[derive(Clone, Copy)]
pub enum ListOpening {
    Named(Tabs),
    Channel(u8),
}

// What a stop list sets: the columns, or a vertical channel.
#[derive(Clone, Copy)]
pub enum Target {
    Columns,
    Channel(u8),
}

// A stop list that is read: it sets stops, or it is dropped.
#[derive(Clone, Copy)]
pub enum Listing {
    Sets(Target),
    Dropped,
}

// The margins, by their codes: ESC l, ESC Q.
#[derive(Clone, Copy)]
pub enum Side {
    Left = 0x6C,
    Right = 0x51,
}

// The page lengths: ESC C n, ESC C 0 n.
#[derive(Clone, Copy)]
pub enum Page {
    Lines(u8),
    Inches(u8),
}

// The moves by two argument bytes, by their codes: ESC $, ESC \.
#[derive(Clone, Copy)]
pub enum Move {
    Absolute = 0x24,
    Relative = 0x5C,
}

// The bytes of a stop list: one that does not end it, and the one that does.
#[derive(Clone, Copy)]
pub enum ListPart {
    Byte(u8),
    End(u8),
}

// What is passed over in every state.
#[derive(Clone, Copy)]
pub enum Refused {
    // A control byte that is not listed, or 7Fh.
    Byte(u8),
    // An escape's second byte that is not listed.
    Escape(u8),
    // A third byte of ESC i that is not listed.
    Advanced(u8),
    // ESC i a n, with n other than 0.
    CommandMode(u8),
    // ESC * m, with a mode that is not listed.
    ImageMode(u8),
}

// What is done and changes nothing.
#[derive(Clone, Copy)]
pub enum Silent {
    // The byte that begins an escape.
    Escape(u8),
    // ESC i a 0: ESC/P mode is kept.
    KeepMode,
    // ESC i S: the link answers it.
    StatusRequest,
}

// A whole command, with its bytes as received.
#[derive(Clone, Copy)]
pub enum Command {
    // A byte that prints.
    Letter(u8),
    // A control byte that is a command; the byte is kept as it came, since 80h more may stand for it.
    Control(Control, u8),
    Refused(Refused),
    Silent(Silent),
    // ESC @.
    Reset,
    // The escapes that change a setting: without an argument, with one, and those that only show on a record.
    Mode(Mode),
    Parameter(Parameter, u8),
    Look(Look),
    // ESC N n.
    Skip(u8),
    // ESC J n.
    Feed(u8),
    // ESC l n, ESC Q n.
    Margin(Side, u8),
    // ESC C n, ESC C 0 n.
    Page(Page),
    // ESC $ a b, ESC \ a b.
    Move(Move, u8, u8),
    // ESC K, L, Y, Z a b, ESC * m a b.
    OpenImage(Opening, u8, u8),
    // A byte of image data: which of its column's bytes it is, from 1, and the byte.
    ImageByte(ImageMode, u8, u8),
    // ESC / m.
    Channel(u8),
    // ESC D, ESC B, ESC b m.
    OpenList(ListOpening),
    // A byte of a stop list.
    List(Listing, ListPart),
}

// The escapes with one argument.
#[derive(Clone, Copy)]
pub enum One {
    Parameter(Parameter),
    Choice(Choice),
    Skip,
    Feed,
    Margin(Side),
    Channel,
}

// The escapes with two arguments.
#[derive(Clone, Copy)]
pub enum Two {
    Move(Move),
    Image(Density),
}

// An escape with arguments still to come, and those so far.
#[derive(Clone, Copy)]
pub enum Begun {
    // The one argument.
    One(One),
    // The argument of ESC C.
    PageLength,
    // The argument of ESC C 0.
    PageInches,
    // The third byte of ESC i.
    Advanced,
    // The argument of ESC i a.
    CommandMode,
    // The first of two arguments.
    FirstOf(Two),
    // The second of two, after the first.
    SecondOf(Two, u8),
    // The mode of ESC *.
    SelectMode,
    // The first byte of its number of columns, and the second, after the first.
    ColumnsLow(ImageMode),
    ColumnsHigh(ImageMode, u8),
    // The channel of ESC b.
    ListChannel,
}

// What the reader is still waiting for.
#[derive(Clone, Copy)]
pub enum Waiting {
    Nothing,
    // An escape's second byte.
    SecondByte,
    // The arguments of an escape.
    Arguments(Begun),
    // A byte of a stop list, after the byte before (0 at its beginning).
    StopList(Listing, u8),
    // Image data: which byte of a column, from 1, and how many columns, that one included.
    ImageData(ImageMode, u8, u16),
}

// What a control byte is.
#[derive(Clone, Copy)]
pub enum First {
    Control(Control),
    Escape,
    Unlisted,
}

// What an escape's second byte is.
#[derive(Clone, Copy)]
pub enum Second {
    Control(Control),
    Reset,
    Mode(Mode),
    Switch(Switch),
    Begins(Begun),
    List(Tabs),
    Unlisted,
}

// A byte read: it is waited on, or a command is whole.
#[derive(Clone, Copy)]
pub enum Frame {
    Waits(Waiting),
    Whole(Command, Waiting),
}
