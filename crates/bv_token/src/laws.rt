//! The laws of tokens, which take no step.
ghost use Rattle.std.specs.Prelude.{◌≡◌, Some};
ghost use Rattle.std.specs.List.{AllByRecursion};
ghost use Rattle.bv_token.specs.Named.{named_tokens};
ghost use Rattle.bv_token.specs.References.{line_reference};
ghost use Rattle.bv_token.specs.Tokens.{keyword_of};

use crate::reference::LINE_REFERENCE;

/// The law of the tokens' names: the keyword of each constant of a token is its word in the table, and the byte that
/// begins a reference is that of the definitions.
pub fn tokens_named()
    ensures words { AllByRecursion (λ named. keyword_of named.0 0 ≡ Some named.1) named_tokens }
    ensures reference { LINE_REFERENCE ≡ line_reference }
{}
