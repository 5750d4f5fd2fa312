ghost use Rattle.gv_sring.specs.Laws.{ShowsHasImage, ShowsStays};

/// The second page of a shadow is the image of the context that its descriptor names, and a shadow
/// stands as long as its entries, and its pages' labels and lengths, stay.
pub fn shadows_have_images()
    ensures image { ShowsHasImage }
    ensures stays { ShowsStays }
{}
