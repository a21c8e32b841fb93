// The laws of interpolation, proved of the definitions.

ghost use Rattle.gs_poly.specs.PolynomialLaws.{
  RootsAreFew,
  InterpolationExists,
  InterpolationIsUnique,
  InterpolationIsWeightedSum,
};

/// Points and values fix one polynomial of degree below their number, whose value elsewhere is a
/// weighted sum of the values.
pub fn interpolation_laws()
    ensures roots { RootsAreFew }
    ensures exists { InterpolationExists }
    ensures unique { InterpolationIsUnique }
    ensures weighted_sum { InterpolationIsWeightedSum }
{}
