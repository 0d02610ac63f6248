ghost use Rattle.std.specs.Prelude.{◌≡◌};
ghost use Rattle.cr_holding.specs.Holding.{with_held};

/// What a call made, with the value that was held meanwhile. The error is the call's.
pub fn holding<T, U: Drop, E>(made: Result<T, E>, held: U) -> Result<(T, U), E>
    ensures { result ≡ with_held held made }
{
    match made {
        Ok(made) => Ok((made, held)),
        Err(error) => Err(error),
    }
}
