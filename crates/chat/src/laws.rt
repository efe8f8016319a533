//! The law of messages, carried by a function that does nothing.
ghost use Rattle.chat.specs.Messages.{MessagesAreOneLine};

/// No message's line holds an LF.
#[tactic(auto, using(crate::proofs::OneLines::message_is_one_line))]
pub fn a_message_is_one_line()
    ensures { MessagesAreOneLine }
{}
