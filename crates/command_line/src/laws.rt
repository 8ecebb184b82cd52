//! Laws of words and what they ask for, which stand over the definitions alone.
ghost use Rattle.std.specs.Prelude.{◌≡◌, ◌⊎◌, ℕ, List};
ghost use Rattle.command_line.specs.GivenArguments.{AskForNothing};
ghost use Rattle.command_line.specs.Requests.{AskFor, IsPlain};
ghost use Rattle.command_line.specs.declared.request.Request.{Request};

/// Words ask for one request at most.
pub fn one_request()
    ensures { (words : List (List ℕ)) (request other : Request) →
        AskFor words request → AskFor words other → request ≡ other }
{}

/// Words ask for a request, or for nothing.
pub fn some_request()
    ensures { (words : List (List ℕ)) → AskForNothing words
        ⊎ ((request : Request) × AskFor words request) }
{}

/// Words that ask for a request do not ask for nothing.
pub fn asked_or_refused()
    ensures { (words : List (List ℕ)) (request : Request) →
        AskFor words request → AskForNothing words → ⊥ }
{}

/// Words of the plain form ask for what they say.
pub fn plain_form()
    ensures { (words : List (List ℕ)) (request : Request) →
        IsPlain words request → AskFor words request }
{}
