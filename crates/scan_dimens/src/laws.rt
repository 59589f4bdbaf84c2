// Laws of dimensions: the functions have no bodies, their contracts are the laws.
ghost use Rattle.scan_dimens.specs.DimenLaws.{PrintedDimensionsAreReadBack};
ghost use Rattle.scan_dimens.specs.DimenWorked.{WorkedDimensions};

/// Dimensions worked out item by item by the definition, with the values that TeX gives.
pub fn dimensions_are_read()
    ensures { WorkedDimensions }
{}

/// What is printed of a dimension in points, each character of category 12 but those of `pt`, is read as that dimension again.
pub fn printed_dimensions_are_read_back()
    ensures { PrintedDimensionsAreReadBack }
{}
