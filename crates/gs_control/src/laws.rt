//! The laws of the grammar.

ghost use Rattle.gs_control.specs.Laws.{BytesAreOneMessage, MessageIsRead};

/// What is written for a message is read as that message.
pub fn message_is_read()
    ensures { MessageIsRead }
{}

/// Bytes are one message at most.
pub fn bytes_are_one_message()
    ensures { BytesAreOneMessage }
{}
