use oat_report::Listed;

/// The words of a pattern; `*` meets each word of a path line.
pub type Pattern = Listed<Listed<u8>>;

/// What a policy asks of a path.
#[derive(Drop)]
pub enum PathRule {
    /// No edge matches.
    Never(Pattern),
    /// Each edge that matches the second pattern has an earlier one that matches the first.
    Before(Pattern, Pattern),
    /// At most so many edges match.
    Most(u32, Pattern),
    /// Edges at rising places match these patterns in turn.
    Order(Listed<Pattern>),
}

/// A rule, and the number of its line from 1.
#[derive(Drop)]
pub struct PolicyRule {
    pub line: u32,
    pub rule: PathRule,
}

/// The rules of a text, in their order.
pub type Policy = Listed<PolicyRule>;
