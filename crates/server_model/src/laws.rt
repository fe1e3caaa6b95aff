// What holds of requests.
ghost use Rattle.std.specs.Prelude.{◌≡◌, ◌≤◌, ℕ, List, length, Ok};
ghost use Rattle.server_model.specs.Requests.{request_of};
ghost use Rattle.server_model.specs.declared.request.Request.{Request};

use aeg_base::limits::TEXT_BYTES;

/// A request's text is no longer than any text may be.
pub fn requests_fit()
    ensures { (text : List ℕ) (request : Request) → request_of text ≡ Ok request → length text ≤ TEXT_BYTES }
{}
