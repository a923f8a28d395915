//! Laws of the grammar. Each is the contract of a function that does nothing.
ghost use Rattle.tp_syntax.specs.ReadTexts.{ReadTextsAreAccepted, ReadingsAreUnique, TreesDetermineModules};
ghost use Rattle.tp_syntax.specs.Refusal.{EachTextIsTold, OneTokenTells, RefusalsAreFirst, TextsHaveOneTree};
ghost use Rattle.tp_syntax.specs.Refusal.{WordsAreTold};

/// A word or symbol of the table is accepted if and only if it comes next.
pub fn words_are_told()
    ensures { WordsAreTold }
{}

/// Tokens spell a tree, by any alternatives, if and only if they are read as this tree by always
/// taking the first alternative that fits the next token: the table is LL(1).
pub fn one_token_tells()
    ensures { OneTokenTells }
{}

/// Tokens spell at most one tree of a module.
pub fn texts_have_one_tree()
    ensures { TextsHaveOneTree }
{}

/// A refusal is at the first token that can't stand: no text of the grammar begins with the tokens
/// up to this one, and some text begins with those before it.
pub fn refusals_are_first()
    ensures { RefusalsAreFirst }
{}

/// Each list of tokens is a text of the grammar, or refused at one of them or at its end.
pub fn each_text_is_told()
    ensures { EachTextIsTold }
{}

/// A module is determined by its tree: two modules with the same tree are equal.
pub fn trees_determine_modules()
    ensures { TreesDetermineModules }
{}

/// A text is read as one module of the grammar. So the module that
/// [`parse`](crate::parser::parse) returns is the only one that the text is read as.
pub fn readings_are_unique()
    ensures { ReadingsAreUnique }
{}

/// A text that is read as a module of the grammar, within the limits, is refused for no rule. So a
/// refusal of [`parse`](crate::parser::parse) means that the text is no such module, or that memory
/// ran out.
pub fn read_texts_are_accepted()
    ensures { ReadTextsAreAccepted }
{}
