// The settings of an end in a line's fields.
ghost use Rattle.std.specs.Prelude.{◌≡◌, IfSome};

use crate::fields::Fields;
use frame::Format;
use state::Settings;

// D WIN TRANS ACK REP. The order of FCS came later and stands elsewhere in a line; until it is read it is the one that an absent field means.
pub fn read(fields: &mut Fields<'_>) -> Option<Settings>
    ensures { IfSome result (λ s. s.format.order ≡ 0) }
{
    let d = fields.number()?;
    let window = fields.number()?;
    let transtimeout = fields.number()?;
    let acktimeout = fields.number()?;
    let repeats = fields.number()?;
    Some(Settings {
        format: Format {
            d,
            order: frame::LOW_FIRST,
        },
        transtimeout,
        acktimeout,
        window,
        repeats,
    })
}
