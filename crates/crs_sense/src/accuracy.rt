//! Ensembles of an odd accuracy, or of one member.

ghost use Rattle.std.specs.Prelude.{◌≡◌};
ghost use Rattle.std.specs.Option.{option_map};
ghost use Rattle.crs_exact.specs.Said.{sentence};
ghost use Rattle.crs_sense.specs.Accuracy.{is_ensemble_odd, members_said, ensemble_said, odd_ensemble, of_geodetic, of_vertical, accuracy};

use crs_exact::{END, Finding, Piece, is_beyond};
use crs_number::Decimal;
use crs_part::{GeodeticFrame, Named, Single, Text, VerticalFrame};

/// The ensemble of the system, if its accuracy is not above 0 or is more than 10 metres, or if it has one member.
pub(crate) fn odd_accuracy(crs: &Single) -> Option<Finding<'_>>
    ensures { option_map sentence result ≡ accuracy crs.now }
{
    match crs {
        Single::Geodetic(crs) => of_geodetic(&crs.datum),
        Single::Projected(crs) => of_geodetic(&crs.base.datum),
        Single::Vertical(crs) => of_vertical(&crs.datum),
    }
}

fn of_geodetic(frame: &GeodeticFrame) -> Option<Finding<'_>>
    ensures { option_map sentence result ≡ of_geodetic frame.now }
{
    match frame {
        GeodeticFrame::Datum(_) => None,
        GeodeticFrame::Ensemble(ensemble) => odd_ensemble(
            &ensemble.name,
            &ensemble.accuracy,
            ensemble.members.others.as_slice(),
        ),
    }
}

fn of_vertical(frame: &VerticalFrame) -> Option<Finding<'_>>
    ensures { option_map sentence result ≡ of_vertical frame.now }
{
    match frame {
        VerticalFrame::Datum(_) => None,
        VerticalFrame::Ensemble(ensemble) => odd_ensemble(
            &ensemble.name,
            &ensemble.accuracy,
            ensemble.members.others.as_slice(),
        ),
    }
}

fn odd_ensemble<'a>(name: &'a Text, accuracy: &'a Decimal, others: &[Named]) -> Option<Finding<'a>>
    ensures { option_map sentence result ≡ odd_ensemble name.now accuracy.now others.now }
{
    if !is_ensemble_odd(*accuracy, others) {
        return None;
    }
    Some(ensemble_said(name, accuracy, others))
}

fn ensemble_said<'a>(name: &'a Text, accuracy: &'a Decimal, others: &[Named]) -> Finding<'a>
    ensures { sentence result ≡ ensemble_said name.now accuracy.now others.now }
{
    Finding::of_words([
        Piece::Text(b"the ensemble \""),
        Piece::Text(name.as_bytes()),
        Piece::Text(b"\" has the accuracy "),
        Piece::Number(accuracy),
        Piece::Text(b" metres and "),
        Piece::Text(members_said(others)),
        END,
        END,
        END,
        END,
        END,
        END,
    ])
}

fn is_ensemble_odd(accuracy: Decimal, others: &[Named]) -> bool
    ensures { result ≡ is_ensemble_odd accuracy others.now }
{
    !(accuracy.coefficient() > 0) || is_beyond(accuracy, 10, 0) || others.len() == 0
}

fn members_said(others: &[Named]) -> &'static [u8]
    ensures { result.now ≡ members_said others.now }
{
    if others.len() == 0 {
        return b"one member";
    }
    b"several members"
}
