//! What the numbers of a call ask for, over the definitions alone.
ghost use Rattle.std.specs.Prelude.{IsTrue};
ghost use Rattle.command_line.specs.CommandLine.{mode_text};
ghost use Rattle.command_line.specs.Requests.{AskFor};
ghost use Rattle.command_line.specs.declared.mode.ModeArgument.{ModeArgument};
ghost use Rattle.colregs_c.specs.Arguments.{are_in_range, arguments_of, request_of};
ghost use Rattle.colregs_c.specs.declared.numbers.OptionNumbers.{OptionNumbers};

use command_line::laws::plain_form;

/// The arguments of a mode and of options in their ranges ask for that mode with these options, and so for no other.
pub fn numbers_ask()
    ensures { (mode : ModeArgument) (options : OptionNumbers) → IsTrue (are_in_range options) →
        AskFor (arguments_of (mode_text mode) options) (request_of mode options) }
{
    plain_form();
}
