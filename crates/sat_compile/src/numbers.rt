// That the numbers of an image lie within their types, which reading them tells a proof.

ghost use Rattle.std.specs.Prelude.{All};
ghost use Rattle.image_format.specs.Readable.{IsWord, IsByte};
ghost use Rattle.sat_compile.specs.Emission.{HasPlace};

use image_format::SiteEntry;

/// Each word of code has 32 bits.
pub fn words_fit(code: &[u32])
    ensures { All IsWord code.now }
{}

/// Each byte of data memory has 8 bits.
pub fn bytes_fit(memory: &[u8])
    ensures { All IsByte memory.now }
{}

/// Line and column of each entry have 32 bits.
pub fn places_fit(sites: &[SiteEntry])
    ensures { All HasPlace sites.now }
{
    for site in sites {
        number_fits(site.line);
        number_fits(site.col);
    }
}

fn number_fits(number: u32)
    ensures { IsWord number }
{}
