//! What the first word of a line says of the words behind it.

ghost use Rattle.std.specs.Prelude.{◌≡◌};
ghost use Rattle.oat_text.specs.Grammar.{op_keyword};
ghost use Rattle.oat_text.specs.Forms.{global_word, func_word, instr_word, term_word, spelled, line_form, global_kinds, func_kinds, instr_kinds, term_kinds, kinds_of, optional};

use oat_ir::BinOp;

/// The form of a line, by its first word.
#[derive(Clone, Copy)]
pub enum LineForm {
    Global(GlobalForm),
    Func(FuncForm),
    Local,
    Block,
    End,
    Instr(InstrForm),
    Term(TermForm),
}

/// A line that declares a global.
#[derive(Clone, Copy)]
pub enum GlobalForm {
    Plain,
    Critical,
    Array,
    Criticals,
}

/// A line that begins a function.
#[derive(Clone, Copy)]
pub enum FuncForm {
    Plain,
    Operation,
    Main,
}

/// A line that is an instruction.
#[derive(Clone, Copy)]
pub enum InstrForm {
    Const,
    Copy,
    Binary(BinOp),
    Load,
    Store,
    LoadX,
    StoreX,
    RefTo,
    Call,
    ICall,
    Input,
    Output,
}

/// A line that ends a block.
#[derive(Clone, Copy)]
pub enum TermForm {
    Jump,
    Branch,
    Ret,
    Halt,
}

/// What kind of word stands at a place behind the first word.
#[derive(Clone, Copy)]
pub enum WordKind {
    Named,
    Typed,
    /// A name and a type.
    Parameter,
    /// A number, or the type of a reference.
    Start,
    /// A number of 64 bits with a sign.
    Integer,
    /// A number from 1 to this one.
    Count(u32),
}

/// All forms.
pub const FORMS: [LineForm; 44] = [
    LineForm::Global(GlobalForm::Plain),
    LineForm::Global(GlobalForm::Critical),
    LineForm::Global(GlobalForm::Array),
    LineForm::Global(GlobalForm::Criticals),
    LineForm::Func(FuncForm::Plain),
    LineForm::Func(FuncForm::Operation),
    LineForm::Func(FuncForm::Main),
    LineForm::Local,
    LineForm::Block,
    LineForm::End,
    LineForm::Instr(InstrForm::Const),
    LineForm::Instr(InstrForm::Copy),
    LineForm::Instr(InstrForm::Binary(BinOp::Add)),
    LineForm::Instr(InstrForm::Binary(BinOp::Sub)),
    LineForm::Instr(InstrForm::Binary(BinOp::Mul)),
    LineForm::Instr(InstrForm::Binary(BinOp::And)),
    LineForm::Instr(InstrForm::Binary(BinOp::Or)),
    LineForm::Instr(InstrForm::Binary(BinOp::Xor)),
    LineForm::Instr(InstrForm::Binary(BinOp::Shl)),
    LineForm::Instr(InstrForm::Binary(BinOp::Shr)),
    LineForm::Instr(InstrForm::Binary(BinOp::Sar)),
    LineForm::Instr(InstrForm::Binary(BinOp::Eq)),
    LineForm::Instr(InstrForm::Binary(BinOp::Ne)),
    LineForm::Instr(InstrForm::Binary(BinOp::Lt)),
    LineForm::Instr(InstrForm::Binary(BinOp::Le)),
    LineForm::Instr(InstrForm::Binary(BinOp::Ltu)),
    LineForm::Instr(InstrForm::Binary(BinOp::Leu)),
    LineForm::Instr(InstrForm::Binary(BinOp::Div)),
    LineForm::Instr(InstrForm::Binary(BinOp::Rem)),
    LineForm::Instr(InstrForm::Binary(BinOp::Divu)),
    LineForm::Instr(InstrForm::Binary(BinOp::Remu)),
    LineForm::Instr(InstrForm::Load),
    LineForm::Instr(InstrForm::Store),
    LineForm::Instr(InstrForm::LoadX),
    LineForm::Instr(InstrForm::StoreX),
    LineForm::Instr(InstrForm::RefTo),
    LineForm::Instr(InstrForm::Call),
    LineForm::Instr(InstrForm::ICall),
    LineForm::Instr(InstrForm::Input),
    LineForm::Instr(InstrForm::Output),
    LineForm::Term(TermForm::Jump),
    LineForm::Term(TermForm::Branch),
    LineForm::Term(TermForm::Ret),
    LineForm::Term(TermForm::Halt),
];

impl LineForm {
    /// The first word of such a line.
    pub fn spelled(self) -> &'static [u8]
        ensures { result.now ≡ spelled self }
    {
        match self {
            LineForm::Global(form) => form.spelled(),
            LineForm::Func(form) => form.spelled(),
            LineForm::Local => b"local",
            LineForm::Block => b"block",
            LineForm::End => b"end",
            LineForm::Instr(form) => form.spelled(),
            LineForm::Term(form) => form.spelled(),
        }
    }

    /// The kinds of the words behind the first one.
    pub fn kinds(self) -> &'static [WordKind]
        ensures { result.now ≡ kinds_of self }
    {
        match self {
            LineForm::Global(form) => form.kinds(),
            LineForm::Func(form) => form.kinds(),
            LineForm::Local => &[WordKind::Named, WordKind::Typed],
            LineForm::Block => &[WordKind::Named],
            LineForm::End => &[],
            LineForm::Instr(form) => form.kinds(),
            LineForm::Term(form) => form.kinds(),
        }
    }

    /// How many words at the end may be wanting.
    pub fn optional(self) -> usize
        ensures { result ≡ optional self }
    {
        match self {
            LineForm::Func(FuncForm::Plain | FuncForm::Operation)
            | LineForm::Instr(InstrForm::Call | InstrForm::ICall) => 4,
            _ => 0,
        }
    }
}

impl GlobalForm {
    fn spelled(self) -> &'static [u8]
        ensures { result.now ≡ global_word self }
    {
        match self {
            GlobalForm::Plain => b"global",
            GlobalForm::Critical => b"critical",
            GlobalForm::Array => b"array",
            GlobalForm::Criticals => b"criticals",
        }
    }

    fn kinds(self) -> &'static [WordKind]
        ensures { result.now ≡ global_kinds self }
    {
        match self {
            GlobalForm::Plain => &[WordKind::Named, WordKind::Start],
            GlobalForm::Critical => &[WordKind::Named, WordKind::Integer],
            GlobalForm::Array => &[WordKind::Named, WordKind::Count(65_536)],
            GlobalForm::Criticals => &[WordKind::Named, WordKind::Count(4096)],
        }
    }
}

impl FuncForm {
    fn spelled(self) -> &'static [u8]
        ensures { result.now ≡ func_word self }
    {
        match self {
            FuncForm::Plain => b"func",
            FuncForm::Operation => b"operation",
            FuncForm::Main => b"main",
        }
    }

    fn kinds(self) -> &'static [WordKind]
        ensures { result.now ≡ func_kinds self }
    {
        match self {
            FuncForm::Plain => &[
                WordKind::Named,
                WordKind::Parameter,
                WordKind::Parameter,
                WordKind::Parameter,
                WordKind::Parameter,
            ],
            FuncForm::Operation => &[
                WordKind::Count(65_535),
                WordKind::Named,
                WordKind::Parameter,
                WordKind::Parameter,
                WordKind::Parameter,
                WordKind::Parameter,
            ],
            FuncForm::Main => &[],
        }
    }
}

impl InstrForm {
    fn spelled(self) -> &'static [u8]
        ensures { result.now ≡ instr_word self }
    {
        match self {
            InstrForm::Const => b"const",
            InstrForm::Copy => b"copy",
            InstrForm::Binary(op) => op_spelled(op),
            InstrForm::Load => b"load",
            InstrForm::Store => b"store",
            InstrForm::LoadX => b"loadx",
            InstrForm::StoreX => b"storex",
            InstrForm::RefTo => b"ref",
            InstrForm::Call => b"call",
            InstrForm::ICall => b"icall",
            InstrForm::Input => b"in",
            InstrForm::Output => b"out",
        }
    }

    fn kinds(self) -> &'static [WordKind]
        ensures { result.now ≡ instr_kinds self }
    {
        match self {
            InstrForm::Const => &[WordKind::Named, WordKind::Integer],
            InstrForm::Copy | InstrForm::Load | InstrForm::Store | InstrForm::RefTo => {
                &[WordKind::Named, WordKind::Named]
            }
            InstrForm::Binary(_) | InstrForm::LoadX | InstrForm::StoreX => {
                &[WordKind::Named, WordKind::Named, WordKind::Named]
            }
            InstrForm::Call | InstrForm::ICall => &[
                WordKind::Named,
                WordKind::Named,
                WordKind::Named,
                WordKind::Named,
                WordKind::Named,
                WordKind::Named,
            ],
            InstrForm::Input | InstrForm::Output => &[WordKind::Named],
        }
    }
}

pub fn op_spelled(op: BinOp) -> &'static [u8]
    ensures { result.now ≡ op_keyword op }
{
    match op {
        BinOp::Add => b"add",
        BinOp::Sub => b"sub",
        BinOp::Mul => b"mul",
        BinOp::And => b"and",
        BinOp::Or => b"or",
        BinOp::Xor => b"xor",
        BinOp::Shl => b"shl",
        BinOp::Shr => b"shr",
        BinOp::Sar => b"sar",
        BinOp::Eq => b"eq",
        BinOp::Ne => b"ne",
        BinOp::Lt => b"lt",
        BinOp::Le => b"le",
        BinOp::Ltu => b"ltu",
        BinOp::Leu => b"leu",
        BinOp::Div => b"div",
        BinOp::Rem => b"rem",
        BinOp::Divu => b"divu",
        BinOp::Remu => b"remu",
    }
}

impl TermForm {
    fn spelled(self) -> &'static [u8]
        ensures { result.now ≡ term_word self }
    {
        match self {
            TermForm::Jump => b"jump",
            TermForm::Branch => b"branch",
            TermForm::Ret => b"ret",
            TermForm::Halt => b"halt",
        }
    }

    fn kinds(self) -> &'static [WordKind]
        ensures { result.now ≡ term_kinds self }
    {
        match self {
            TermForm::Jump | TermForm::Ret => &[WordKind::Named],
            TermForm::Branch => &[WordKind::Named, WordKind::Named, WordKind::Named],
            TermForm::Halt => &[],
        }
    }
}

/// The form that a first word begins.
pub fn line_form(word: &[u8]) -> Option<LineForm>
    ensures { result ≡ line_form word.now }
{
    FORMS.iter().copied().find(|form| word == form.spelled())
}
