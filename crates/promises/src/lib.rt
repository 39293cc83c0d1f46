// What opening, setting up, protecting, restoring and runs promise together.

#![tactic(auto)]

ghost use Rattle.promises.specs.Promises.{Promises};

use filters::series::Series;
use methods::method::CryptMethod;

// The promises, for every two series and every crypt method of these types. They follow from the laws of opening.
pub fn promises<S: Series, L: Series, M: CryptMethod>()
    ensures { Promises S.Series.meaning L.Series.meaning M.CryptMethod.scheme }
{
    opening::laws::laws();
}
