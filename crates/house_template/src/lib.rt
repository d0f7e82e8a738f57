// A query over the site's dataset and the house template: the value out of whichever of the two supplies it, the site's first.
#![tactic(auto)]

ghost use Rattle.std.specs.Prelude.{◌≡◌};
ghost use Rattle.refusal.specs.Answer.{given, absent};
ghost use Rattle.refusal.specs.Results.{found_of};
ghost use Rattle.tlv_last.specs.Last.{spot_at};
ghost use Rattle.house_template.specs.Template.{site, site_first, supplied_spot, supplied_value};
ghost use Rattle.house_template.specs.Answers.{supplied_answer};

use refusal::Refusal;
use tlv_last::Spot;

// Which of the two supplies the value, and where its entry lies there.
#[derive(Clone, Copy)]
pub enum Supplied {
    Site(Spot),
    Template(Spot),
}

// Where the value of a type lies, and in which of the two. Refusals: 1, 2, 3 of the dataset, then of the template, even where the dataset has the type.
#[tactic(auto, using(refusal::proofs::Papers::passes, crate::proofs::Supplies::spots_first))]
pub fn supplied_entry(dataset: &[u8], template: &[u8], ty: u8) -> Result<Option<Supplied>, Refusal>
    ensures { supplied_answer result ≡ supplied_spot ty dataset.now template.now }
{
    let site = tlv_last::last_entry(dataset, ty, 0)?;
    let house = tlv_last::last_entry(template, ty, 1)?;
    Ok(match site {
        Some(spot) => Some(Supplied::Site(spot)), // the length is not asked
        None => house.map(Supplied::Template),
    })
}

// The value's bytes, as a part of the one that supplies it; no bytes where neither does or one is refused (`supplied_entry` tells which).
pub fn supplied_value<'a>(dataset: &'a [u8], template: &'a [u8], ty: u8) -> &'a [u8]
    ensures { result.now ≡ supplied_value ty dataset.now template.now }
{
    match supplied_entry(dataset, template, ty) {
        Ok(Some(Supplied::Site(spot))) => &dataset[spot.start..spot.start + spot.len],
        Ok(Some(Supplied::Template(spot))) => &template[spot.start..spot.start + spot.len],
        Ok(None) => &dataset[..0],
        Err(_) => &dataset[..0],
    }
}
