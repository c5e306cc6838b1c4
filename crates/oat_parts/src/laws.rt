//! Laws of code in parts, each the contract of a function that does nothing.
ghost use Rattle.oat_parts.specs.Built.{BuiltImagesAreShaped, BuiltItemsStand, BuiltLabelsRise, PartsCanBeExpanded, PartsHaveTheLabels};
ghost use Rattle.oat_parts.specs.Making.{CodesAreInParts, CodesHaveTheirWords, PartsBehindLabel, PartsJoin, WordsAdd};

use oat_a64::laws::fetches_by_the_table;

/// Items in parts are what the assembler and the expansion ask for.
pub fn parts_can_be_expanded()
    ensures { PartsCanBeExpanded }
{}

/// Items in parts have the labels of their table.
pub fn parts_have_the_labels()
    ensures { PartsHaveTheLabels }
{}

/// The image that is built of parts is well formed and has the shape.
pub fn built_images_are_shaped()
    ensures { BuiltImagesAreShaped }
{
    fetches_by_the_table();
}

/// The items of such an image stand in it.
pub fn built_items_stand()
    ensures { BuiltItemsStand }
{
    fetches_by_the_table();
}

/// Its labels have addresses in the order of the table.
pub fn built_labels_rise()
    ensures { BuiltLabelsRise }
{}

/// Items in parts may stand one behind the other.
pub fn parts_join()
    ensures { PartsJoin }
{}

/// A label may stand before items without a label that have a word.
pub fn parts_behind_label()
    ensures { PartsBehindLabel }
{}

/// A program whose functions are labels with stretches of code is in parts.
pub fn codes_are_in_parts()
    ensures { CodesAreInParts }
{}

/// The words of two lists of items add up.
pub fn words_add()
    ensures { WordsAdd }
{}

/// The words of a program are those of its stretches.
pub fn codes_have_their_words()
    ensures { CodesHaveTheirWords }
{}
